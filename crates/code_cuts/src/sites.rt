//! Acts of sites are cut well, as the contracts of functions that do nothing (docs/CODE.md, "Cuts").
ghost use Rattle.std.specs.Prelude.{◌≡◌, ◌-◌, ℕ, Bool, List, Option, Some, slice_get};
ghost use Rattle.act_refines.specs.Does.{Nothing};
ghost use Rattle.cell_laws.specs.Standing.{IsSite};
ghost use Rattle.code_cuts.specs.Acts.{CutsAct};
ghost use Rattle.code_cuts.specs.Asked.{HasAimed, HasArguments, HasClass, IsInside, IsTimed, SealsBlock, SealsCall, SealsCopy};
ghost use Rattle.devices.specs.Journal.{Place};
ghost use Rattle.run_plan.specs.declared.act.Act.{Act};
ghost use Rattle.run_plan.specs.declared.act.Act.TheVariants as act;
ghost use Rattle.run_plan.specs.Finding.{statement_of};
ghost use Rattle.run_plan.specs.Small.{Doing};
ghost use Rattle.task_ast.specs.declared.core_form.CoreEnd.{CoreEnd};
ghost use Rattle.task_ast.specs.declared.core_form.CoreExpr.{CoreExpr};
ghost use Rattle.task_ast.specs.declared.core_form.CoreStmt.TheVariants as stmt;
ghost use Rattle.task_ast.specs.declared.core_form.CoreTarget.{CoreTarget};
ghost use Rattle.task_ast.specs.declared.core_form.Site.TheVariants as site;
ghost use Rattle.task_ast.specs.declared.tree.Ann.{Ann};
ghost use Rattle.word_machine.specs.State.{Program};

use act_refines::{a_write_keeps_memory, same_fram_keeps_cells};

/// Valuing a call shows nothing, or traps before it does.
pub fn a_value_of_a_call_is_cut_well()
    ensures { (p : Program) (place_of : ℕ → Place) (d : Doing) (number : ℕ) (keeps : Bool) (k i q : ℕ) (target : Option CoreTarget) (es : List CoreExpr) → statement_of d k ≡ Some (stmt.Io i target q es)
        → CutsAct p place_of d number keeps (act.Value k) Nothing }
{
    a_write_keeps_memory();
    same_fram_keeps_cells();
}

/// So does valuing a copy.
pub fn a_value_of_a_copy_is_cut_well()
    ensures { (p : Program) (place_of : ℕ → Place) (d : Doing) (number : ℕ) (keeps : Bool) (k i : ℕ) (to from : CoreEnd) (words : CoreExpr) → statement_of d k ≡ Some (stmt.Copy i to from words)
        → CutsAct p place_of d number keeps (act.Value k) Nothing }
{
    a_write_keeps_memory();
    same_fram_keeps_cells();
}

/// A look is cut well: it uses up one of the plan's looks as it is seen.
pub fn a_look_is_cut_well()
    ensures { (p : Program) (place_of : ℕ → Place) (d : Doing) (number : ℕ) (keeps : Bool) (k : ℕ) → CutsAct p place_of d number keeps (act.Look k) Nothing }
{
    a_write_keeps_memory();
    same_fram_keeps_cells();
}

/// So is a call's choice, where the mode and the time of a look were made.
pub fn a_choice_of_a_call_is_cut_well()
    ensures { (p : Program) (place_of : ℕ → Place) (d : Doing) (number : ℕ) (keeps : Bool) (k : ℕ) (ann : Ann) (issue keep : List Act) → IsSite k → slice_get d.setting.task.sites (k - 1) ≡ Some (site.Io ann)
        → CutsAct p place_of d number keeps (act.Choose k issue keep) IsTimed }
{
    a_write_keeps_memory();
    same_fram_keeps_cells();
}

/// And a copy's.
pub fn a_choice_of_a_copy_is_cut_well()
    ensures { (p : Program) (place_of : ℕ → Place) (d : Doing) (number : ℕ) (keeps : Bool) (k most : ℕ) (issue keep : List Act) → IsSite k → slice_get d.setting.task.sites (k - 1) ≡ Some (site.Copy most)
        → CutsAct p place_of d number keeps (act.Choose k issue keep) Nothing }
{
    a_write_keeps_memory();
    same_fram_keeps_cells();
}

/// A copy's classes are, where a class was made.
pub fn a_copy_by_its_class_is_cut_well()
    ensures { (p : Program) (place_of : ℕ → Place) (d : Doing) (number : ℕ) (keeps : Bool) (k : ℕ) (single private rest : List Act) → CutsAct p place_of d number keeps (act.ByClass k single private rest) (HasClass k) }
{
    a_write_keeps_memory();
    same_fram_keeps_cells();
}

/// A block's beginning is, where the mode outside and the time of a look were made.
pub fn a_beginning_of_a_block_is_cut_well()
    ensures { (p : Program) (place_of : ℕ → Place) (d : Doing) (number : ℕ) (keeps : Bool) (k : ℕ) → CutsAct p place_of d number keeps (act.Enter k) IsTimed }
{
    a_write_keeps_memory();
    same_fram_keeps_cells();
}

/// And its end, where both modes were.
pub fn an_end_of_a_block_is_cut_well()
    ensures { (p : Program) (place_of : ℕ → Place) (d : Doing) (number : ℕ) (keeps : Bool) (k : ℕ) (acts : List Act) → CutsAct p place_of d number keeps (act.Leave k acts) (IsInside k) }
{
    a_write_keeps_memory();
    same_fram_keeps_cells();
}

/// An issue is cut well, where the arguments were made: it is counted as it is seen.
pub fn an_issue_is_cut_well()
    ensures { (p : Program) (place_of : ℕ → Place) (d : Doing) (number : ℕ) (keeps : Bool) (k i q : ℕ) (target : Option CoreTarget) (es : List CoreExpr) → statement_of d k ≡ Some (stmt.Io i target q es)
        → CutsAct p place_of d number keeps (act.Issue k) HasArguments }
{
    a_write_keeps_memory();
    same_fram_keeps_cells();
}

/// Taking a kept word is.
pub fn a_taken_word_is_cut_well()
    ensures { (p : Program) (place_of : ℕ → Place) (d : Doing) (number : ℕ) (keeps : Bool) (k : ℕ) → CutsAct p place_of d number keeps (act.Take k) Nothing }
{
    a_write_keeps_memory();
    same_fram_keeps_cells();
}

/// Writing a call's word is, with a target and without, where a target was made, and a word for it.
pub fn a_written_word_is_cut_well()
    ensures { (p : Program) (place_of : ℕ → Place) (d : Doing) (number : ℕ) (keeps : Bool) (k : ℕ) → CutsAct p place_of d number keeps (act.Write k) HasAimed }
{
    a_write_keeps_memory();
    same_fram_keeps_cells();
}

/// Dropping a record is: its one word is seen with its event.
pub fn a_dropped_record_is_cut_well()
    ensures { (p : Program) (place_of : ℕ → Place) (d : Doing) (number : ℕ) (keeps : Bool) (k : ℕ) → IsSite k → CutsAct p place_of d number keeps (act.Drop k) Nothing }
{
    a_write_keeps_memory();
    same_fram_keeps_cells();
}

/// Sealing a call's record is, where it doesn't hold and its word and time were made, the time not later than now: its flag, the last, is seen with its event.
pub fn a_sealed_call_is_cut_well()
    ensures { (p : Program) (place_of : ℕ → Place) (d : Doing) (number : ℕ) (keeps : Bool) (k : ℕ) (ann : Ann) → IsSite k → slice_get d.setting.task.sites (k - 1) ≡ Some (site.Io ann)
        → CutsAct p place_of d number keeps (act.Seal k) (SealsCall k) }
{
    a_write_keeps_memory();
    same_fram_keeps_cells();
}

/// And a block's, where its beginning was, not later than now.
pub fn a_sealed_block_is_cut_well()
    ensures { (p : Program) (place_of : ℕ → Place) (d : Doing) (number : ℕ) (keeps : Bool) (k : ℕ) (ann : Ann) → IsSite k → slice_get d.setting.task.sites (k - 1) ≡ Some (site.Block ann)
        → CutsAct p place_of d number keeps (act.Seal k) (SealsBlock k) }
{
    a_write_keeps_memory();
    same_fram_keeps_cells();
}

/// And a copy's, where it was valued, goes to no constant, and the site's kept words have room for it: then its record may be followed.
pub fn a_sealed_copy_is_cut_well()
    ensures { (p : Program) (place_of : ℕ → Place) (d : Doing) (number : ℕ) (keeps : Bool) (k most : ℕ) → IsSite k → slice_get d.setting.task.sites (k - 1) ≡ Some (site.Copy most)
        → CutsAct p place_of d number keeps (act.Seal k) (SealsCopy d k) }
{
    a_write_keeps_memory();
    same_fram_keeps_cells();
}
