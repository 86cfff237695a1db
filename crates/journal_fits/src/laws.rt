//! How a machine's journal fits its world, as the contracts of functions that do nothing.
ghost use Rattle.std.specs.Prelude.{◌≡◌, ◌+◌, ◌<◌, ◌^◌, ℕ, List, length};
ghost use Rattle.audit_check.specs.Ended.{EndFits};
ghost use Rattle.audit_check.specs.Fits.{BootsFit};
ghost use Rattle.devices.specs.Journal.{Place};
ghost use Rattle.devices.specs.World.{AreWords, IsWithinLimits};
ghost use Rattle.devices.specs.declared.world.PowerRow.{PowerRow};
ghost use Rattle.devices.specs.declared.world.World.{World};
ghost use Rattle.journal_fits.specs.Names.{AllNamePeripherals};
ghost use Rattle.journal_fits.specs.Words.{HaveWordSites};
ghost use Rattle.power_trace.specs.Report.{Style};
ghost use Rattle.power_trace.specs.Run.{journal_on};
ghost use Rattle.power_trace.specs.Short.{IsWord};
ghost use Rattle.report_text.specs.Written.{IsJournal};
ghost use Rattle.task_ast.specs.WellFormed.{IsWellFormed};
ghost use Rattle.task_ast.specs.declared.core_form.Core.{Core};
ghost use Rattle.task_attempts.specs.Boots.{expect, rules_of};
ghost use Rattle.task_attempts.specs.Sound.{AllEndWell};
ghost use Rattle.word_machine.specs.Runs.{boots, end_of, last_ending, total_steps};
ghost use Rattle.word_machine.specs.State.{Program, State};
ghost use Rattle.word_machine.specs.declared.ending.Ending.TheVariants as ending;

use devices::World;
use word_isa::{Image, Mark};

/// Each boot of a machine has a power row and begins where the rows before it end; its events come in its row, each in a step of
/// its own, in order; and nothing comes behind a trap.
pub fn the_steps_of_a_journal_fit_its_power()
    ensures { (place_of : ℕ → Place) (p : Program) (rows : List PowerRow) (before : ℕ) (s : State) → BootsFit before rows (boots place_of p rows before s) }
{}

/// The run of a machine may end as its journal says: with its power, where each row has its boot and nothing trapped; with a trap that
/// is its last event; or where it halted, behind all its events, if it halts only where no task is next.
pub fn the_end_of_a_journal_fits_its_power()
    ensures { (place_of : ℕ → Place) (p : Program) (rows : List PowerRow) (s : State) → s.ending ≡ ending.Running
        → AllEndWell 1 (total_steps p rows s) (boots place_of p rows 0 s) (end_of (last_ending p rows s))
        → EndFits rows (boots place_of p rows 0 s) (total_steps p rows s) (end_of (last_ending p rows s)) }
{}

/// Each issue that the rules expect, in any boot, is of a peripheral of the program.
pub fn the_rules_name_the_peripherals_of_a_program()
    ensures { (c : Core) (world : World) (cuts looks : List ℕ) → IsWellFormed c → AllNamePeripherals c (expect (rules_of c world) cuts looks) }
{}

/// The journal of an image on a world within the limits can be written, if its boots are fewer than a word counts: its numbers are
/// words, and each place that it names is one of the image's symbols.
#[tactic(auto, using(crate::proofs::InImage::image_writes))]
pub fn the_numbers_of_a_journal_are_words(image: &Image, world: &World)
    requires { IsWithinLimits world.now }
    ensures { (style : Style) → length style.symbols ≡ length image.now.symbols → length (journal_on image.now world.now).boots + 1 < 2 ^ 32 → IsJournal style (journal_on image.now world.now) }
{
    words_are_short(image.fram.as_slice());
    sites_are_short(image.marks.as_slice());
}

// Words are numbers of 32 bits.
fn words_are_short(words: &[u32])
    ensures { AreWords words.now }
{}

// The sites of marks are numbers of 8 bits.
fn sites_are_short(marks: &[Mark])
    ensures { HaveWordSites marks.now }
{
    'marks: for mark in marks {
        site_is_short(*mark);
    }
}

// One of them is.
fn site_is_short(mark: Mark)
    ensures { IsWord mark.site }
{}
