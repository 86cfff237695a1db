//! Acts of programs without sites are cut well, as the contracts of functions that do nothing (docs/CODE.md, "Cuts").
ghost use Rattle.std.specs.Prelude.{◌≡◌, ◌<◌, ◌≤◌, ℕ, Bool, List, [], length, slice_index_or};
ghost use Rattle.act_refines.specs.Does.{AreHomes, MayCommit, Nothing, StatementFits};
ghost use Rattle.code_cuts.specs.Acts.{CommitsEarly, CutsAct};
ghost use Rattle.devices.specs.Journal.{Place};
ghost use Rattle.run_plan.specs.declared.act.Act.{Act};
ghost use Rattle.run_plan.specs.declared.act.Act.TheVariants as act;
ghost use Rattle.run_plan.specs.Small.{Doing, core_of};
ghost use Rattle.task_ast.specs.declared.core_form.CoreExpr.{CoreExpr};
ghost use Rattle.task_ast.specs.declared.core_form.CoreStmt.{CoreStmt};
ghost use Rattle.word_machine.specs.State.{Program};

use act_laws::an_instance_is_committed;
use act_refines::{
    a_write_keeps_memory, an_instance_is_committed_as_planned, same_fram_keeps_cells,
};

/// A lock is cut well.
pub fn a_lock_is_cut_well()
    ensures { (p : Program) (place_of : ℕ → Place) (d : Doing) (number : ℕ) (keeps : Bool) (r : ℕ) → r ≤ 128 → CutsAct p place_of d number keeps (act.Lock r) Nothing }
{
    a_write_keeps_memory();
    same_fram_keeps_cells();
}

/// So is saving a region, between any two of its words.
pub fn a_region_is_saved_in_cuts()
    ensures { (p : Program) (place_of : ℕ → Place) (d : Doing) (number : ℕ) (keeps : Bool) (r : ℕ) → AreHomes (core_of d) (slice_index_or d.firsts r []) → CutsAct p place_of d number keeps (act.Save r) Nothing }
{
    a_write_keeps_memory();
    same_fram_keeps_cells();
}

/// And restoring one.
pub fn a_region_is_restored_in_cuts()
    ensures { (p : Program) (place_of : ℕ → Place) (d : Doing) (number : ℕ) (keeps : Bool) (r : ℕ) → AreHomes (core_of d) (slice_index_or d.firsts r []) → CutsAct p place_of d number keeps (act.Restore r) Nothing }
{
    a_write_keeps_memory();
    same_fram_keeps_cells();
}

/// An attempt's beginning is cut well, under both schemes: under `bank` between any two homes that it brings level.
pub fn a_beginning_is_cut_well()
    ensures { (p : Program) (place_of : ℕ → Place) (d : Doing) (number : ℕ) (keeps : Bool) (task : ℕ) → CutsAct p place_of d number keeps (act.Begin task) Nothing }
{
    a_write_keeps_memory();
    same_fram_keeps_cells();
}

/// A statement without sites is cut well, between any two of its writes and before its trap.
pub fn a_statement_is_cut_well()
    ensures { (p : Program) (place_of : ℕ → Place) (d : Doing) (number : ℕ) (keeps : Bool) (x : CoreStmt) → CutsAct p place_of d number keeps (act.Plain x) (StatementFits d x) }
{
    a_write_keeps_memory();
    same_fram_keeps_cells();
}

/// So is a test, which shows nothing.
pub fn a_test_is_cut_well()
    ensures { (p : Program) (place_of : ℕ → Place) (d : Doing) (number : ℕ) (keeps : Bool) (e : CoreExpr) (first second : List Act) → CutsAct p place_of d number keeps (act.Test e first second) Nothing }
{
    a_write_keeps_memory();
    same_fram_keeps_cells();
}

/// A commit is cut well, where the next epoch fits and the next task is one of the program's: its one word is seen with its event.
pub fn a_commit_is_cut_well()
    ensures { (p : Program) (place_of : ℕ → Place) (d : Doing) (number : ℕ) (keeps : Bool) (task : ℕ) → task < 128 → task ≤ length (core_of d).tasks → CutsAct p place_of d number keeps (act.Commit task) MayCommit }
{
    an_instance_is_committed_as_planned();
    a_write_keeps_memory();
    same_fram_keeps_cells();
}

/// It takes a step less than it may.
pub fn a_commit_leaves_a_step()
    ensures { (p : Program) (place_of : ℕ → Place) (d : Doing) (number : ℕ) (keeps : Bool) (task : ℕ) → task < 128 → CommitsEarly p place_of d number keeps (act.Commit task) }
{
    an_instance_is_committed();
    an_instance_is_committed_as_planned();
    a_write_keeps_memory();
    same_fram_keeps_cells();
}
