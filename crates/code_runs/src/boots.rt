//! A boot's start, as the contract of a function that does nothing (docs/CODE.md, "What is proved").
ghost use Rattle.std.specs.Prelude.{ℕ};
ghost use Rattle.code_cuts.specs.Boots.{RunsPlan};
ghost use Rattle.code_runs.specs.Booting.{AllBootsRun, StopsSoon};
ghost use Rattle.devices.specs.Journal.{Place};
ghost use Rattle.run_plan.specs.Runs.{Planned};
ghost use Rattle.task_ast.specs.WellFormed.{IsWellFormed};
ghost use Rattle.word_machine.specs.State.{Program};

use act_laws::a_boot_finds_its_task;
use act_refines::same_fram_keeps_cells;

/// Where the head, the stubs and what a boot restores stand, and each act runs at its place, a machine's code runs the plan: each
/// boot finds the next task by the state word, restores its regions and goes on with attempts, one after another, cut anywhere;
/// and where no task is next it halts.
pub fn boots_run_as_planned()
    ensures { (p : Program) (place_of : ℕ → Place) (x : Planned) → IsWellFormed x.rules.core → AllBootsRun p place_of x → StopsSoon p → RunsPlan p place_of x }
{
    a_boot_finds_its_task();
    same_fram_keeps_cells();
}
