//! What holds of every journal's report and of every event, as the contracts of functions that do nothing.
ghost use Rattle.std.specs.Prelude.{◌≡◌, Some};
ghost use Rattle.devices.specs.Journal.{Journal, JournalEvent};
ghost use Rattle.power_trace.specs.Report.{Style, report};
ghost use Rattle.report_text.specs.Events.{event_in, style_of, IsOf};
ghost use Rattle.report_text.specs.Grammar.{IsReport, IsText};
ghost use Rattle.report_text.specs.Written.{IsFull, IsJournal, event_told, journal_told};
ghost use Rattle.report_text.specs.declared.line.LineText.{LineText};
ghost use Rattle.task_ast.specs.WellFormed.{IsWellFormed};
ghost use Rattle.task_ast.specs.declared.core_form.Core.{Core};

/// The full report of every journal is the report of the lines that tell it, event by event, where its names are names and its
/// numbers words of 32 bits: so `read_report` reads those lines from it.
pub fn the_report_of_a_journal_is_of_the_lines_that_tell_it()
    ensures { (style : Style) (j : Journal) → IsFull style → IsJournal style j → IsReport (report style j) (journal_told style j) }
{}

/// The event that a program's names give to a text of the grammar is told by that very text, and each event of the program is given
/// to the text that tells it: so at most one event has a line.
pub fn an_event_and_its_text_give_each_other()
    ensures told { (core : Core) (t : LineText) (e : JournalEvent) → IsWellFormed core → IsText t → event_in core t ≡ Some e → event_told (style_of core) e ≡ t }
    ensures given { (core : Core) (e : JournalEvent) → IsWellFormed core → IsOf core e → event_in core (event_told (style_of core) e) ≡ Some e }
{}
