//! Runs over power rows, as the contracts of functions that do nothing (docs/CODE.md, "What is proved").
ghost use Rattle.std.specs.Prelude.{◌≡◌, ℕ, List};
ghost use Rattle.code_cuts.specs.Boots.{RunsPlan};
ghost use Rattle.code_cuts.specs.Runs.{shown_by};
ghost use Rattle.devices.specs.Journal.{Place};
ghost use Rattle.devices.specs.declared.world.PowerRow.{PowerRow};
ghost use Rattle.power_runs.specs.Due.{AreDueOver, FailsWell, HaltsUnmarked, StartsWell};
ghost use Rattle.power_runs.specs.Followed.{AreFollowed};
ghost use Rattle.power_runs.specs.Journals.{tells_in, unnumbered};
ghost use Rattle.run_plan.specs.Cells.{State};
ghost use Rattle.run_plan.specs.Runs.{Planned};
ghost use Rattle.task_ast.specs.WellFormed.{IsWellFormed};
ghost use Rattle.task_attempts.specs.Journals.{looks_of};
ghost use Rattle.task_attempts.specs.State.{Rules};
ghost use Rattle.word_isa.specs.declared.parts.Scheme.{Scheme};
ghost use Rattle.word_machine.specs.Runs.{journal, numbered};
ghost use Rattle.word_machine.specs.State.{Program};
ghost use Rattle.word_machine.specs.Straight.{Spot, live};

use act_refines::same_fram_keeps_cells;

/// Behind a power failure FRAM and the counts of issues stand for what the failure leaves of the plan's state.
pub fn a_failure_leaves_what_lasts()
    ensures { (p : Program) (rules : Rules) (scheme : Scheme) → IsWellFormed rules.core → FailsWell p rules scheme }
{
    same_fram_keeps_cells();
}

/// Code that runs a plan follows it over all power rows: in each boot, cut behind any of its steps, the machine has shown just
/// what a front of the plan's small steps shows, and what outlives a failure stands for the state behind them, from which the
/// plan's next boot begins.
pub fn a_run_over_power_rows_is_followed()
    ensures { (p : Program) (place_of : ℕ → Place) (x : Planned) → RunsPlan p place_of x → IsWellFormed x.rules.core
        → (rows : List PowerRow) (m : Spot) (s : State) → StartsWell p place_of x rows m s → AreFollowed p place_of x rows m s }
{
    a_failure_leaves_what_lasts();
}

/// The events of a boot in a journal are those that its steps show, and at the end its trap.
pub fn the_events_of_a_boot_are_those_seen()
    ensures { (p : Program) (place_of : ℕ → Place) → HaltsUnmarked p → (before n : ℕ) (m : Spot) → unnumbered (numbered place_of p before n (live m)) ≡ tells_in (shown_by p place_of n m) }
{}

/// The looks that a journal shows are due, boot by boot.
pub fn the_looks_of_a_journal_are_due()
    ensures { (p : Program) (place_of : ℕ → Place) → HaltsUnmarked p → (rows : List PowerRow) (m : Spot) → AreDueOver p place_of rows m (looks_of (journal place_of p rows (live m))) }
{}
