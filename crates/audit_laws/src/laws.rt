//! What holds of the walk of a journal's boots, and of the answer on a report, as the contracts of functions that do nothing.
ghost use Rattle.std.specs.Prelude.{◌≡◌, ◌≤◌, ℕ, List, length, min, false};
ghost use Rattle.task_ast.specs.WellFormed.{IsWellFormed};
ghost use Rattle.devices.specs.Journal.{Journal};
ghost use Rattle.power_trace.specs.Report.{report};
ghost use Rattle.task_attempts.specs.State.{Standing};
ghost use Rattle.task_attempts.specs.Boots.{rules_of, attempts_log, booted};
ghost use Rattle.task_attempts.specs.Sound.{IsLegal};
ghost use Rattle.report_text.specs.declared.line.ReportLine.{ReportLine};
ghost use Rattle.report_text.specs.Events.{style_of};
ghost use Rattle.report_text.specs.Grammar.{IsReport};
ghost use Rattle.report_text.specs.Written.{IsJournal};
ghost use Rattle.audit_check.specs.declared.around.Around.{Around};
ghost use Rattle.audit_check.specs.declared.journal.ReportBoot.{ReportBoot};
ghost use Rattle.audit_check.specs.Journal.{boots_of};
ghost use Rattle.audit_check.specs.Lines.{lines_of, Reaches};
ghost use Rattle.audit_check.specs.Fits.{BootsFit, BootsFitWorld};
ghost use Rattle.audit_check.specs.Allowed.{IsAllowed};
ghost use Rattle.audit_check.specs.Leads.{Reached};
ghost use Rattle.audit_check.specs.Walking.{Walking};
ghost use Rattle.audit_check.specs.Tracks.{events, Knows, from_here};
ghost use Rattle.audit_check.specs.Booted.{boot_walked, journal_walked};
ghost use Rattle.audit_check.specs.Ended.{EndFits, end_fits};
ghost use Rattle.audit_laws.specs.Answers.{BootsAreNamed, Answer, legal, IsAnswerOn, IsAnswer};
ghost use Rattle.audit_laws.specs.Gathered.{gathered, right_lines};
ghost use Rattle.audit_laws.specs.Right.{AreAround};
ghost use Rattle.audit_laws.specs.Stops.{Stops};
ghost use Rattle.audit_laws.specs.Verdict.{answer_by};

use devices::World;
use report_text::{
    an_event_and_its_text_give_each_other, the_report_of_a_journal_is_of_the_lines_that_tell_it,
};
use task_ast::Core;

/// A boot goes along the rules, attempt by attempt, until its events end or the next one isn't theirs.
pub fn boots_go_along(c: &Core, world: &World)
    requires { IsWellFormed c.now }
    ensures { (tasks : List Around) → AreAround c.now tasks → (b : ReportBoot) (w : Walking) (s : Standing) → Knows world.now.feeds w s
        → Reached (events b.events) s (from_here (attempts_log (rules_of c.now world.now) (length b.events)) (booted (rules_of c.now world.now) s)) (Stops world.now.feeds (boot_walked tasks b w)) }
{}

/// The first lines of a journal that are allowed are as many as fit the world and as the walk goes along, whichever are fewer.
pub fn a_walk_finds_the_lines_that_are_allowed(c: &Core, world: &World)
    requires { IsWellFormed c.now }
    ensures { (tasks : List Around) → AreAround c.now tasks → (boots : List ReportBoot) (n : ℕ) → lines_of (boots_of boots) ≤ 4294967295
        → Reaches (BootsFitWorld world.now) (boots_of boots) n → Reaches (IsAllowed c.now world.now) (boots_of boots) (min n (journal_walked tasks c.now world.now.feeds boots).lines) }
{}

/// The answer on a report is told by how many of its first lines are right: those of its boots that are allowed, and that of its end
/// if all of them are and the run may end so. No other answer is one. No more lines are right than there are.
pub fn the_lines_that_are_right_tell_the_answer(c: &Core, world: &World)
    requires { IsWellFormed c.now }
    ensures right { (bytes : List ℕ) (lines : List ReportLine) → IsReport bytes lines → (boots : List ReportBoot) → boots_of boots ≡ (gathered c.now false 1 lines).boots
        → (n : ℕ) → Reaches (IsAllowed c.now world.now) (boots_of boots) n
        → IsAnswer c.now world.now bytes (answer_by (right_lines n (lines_of (boots_of boots)) (gathered c.now false 1 lines).ending (λ e. end_fits world.now.power boots e.0 e.1)) (length lines)) }
    ensures only { (bytes : List ℕ) (lines : List ReportLine) → IsReport bytes lines → (boots : List ReportBoot) → boots_of boots ≡ (gathered c.now false 1 lines).boots
        → (n : ℕ) → Reaches (IsAllowed c.now world.now) (boots_of boots) n → (a : Answer) → IsAnswerOn c.now world.now lines a
        → a ≡ answer_by (right_lines n (lines_of (boots_of boots)) (gathered c.now false 1 lines).ending (λ e. end_fits world.now.power boots e.0 e.1)) (length lines) }
    ensures within { (bytes : List ℕ) (lines : List ReportLine) → IsReport bytes lines → (boots : List ReportBoot) → boots_of boots ≡ (gathered c.now false 1 lines).boots
        → (n : ℕ) → Reaches (IsAllowed c.now world.now) (boots_of boots) n
        → right_lines n (lines_of (boots_of boots)) (gathered c.now false 1 lines).ending (λ e. end_fits world.now.power boots e.0 e.1) ≤ length lines }
{
    an_event_and_its_text_give_each_other();
}

/// The full report of a journal is legal if the rules allow the journal, its steps fit the world's power, and its run may end so.
pub fn the_report_of_a_right_journal_is_legal(c: &Core, world: &World)
    requires { IsWellFormed c.now }
    ensures { (j : Journal) → IsJournal (style_of c.now) j → BootsAreNamed c.now j.boots → IsLegal (rules_of c.now world.now) j
        → BootsFit 0 world.now.power j.boots → EndFits world.now.power j.boots j.steps j.ending → IsAnswer c.now world.now (report (style_of c.now) j) legal }
{
    the_report_of_a_journal_is_of_the_lines_that_tell_it();
}
