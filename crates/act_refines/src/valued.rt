//! What the code of a copy's value does of its act, as the contracts of functions that do nothing (docs/CODE.md, "What is proved").
ghost use Rattle.std.specs.Prelude.{◌≡◌, ℕ, Bool, Some, true};
ghost use Rattle.act_laws.specs.Values.{IsOverEnd, with_copy};
ghost use Rattle.act_refines.specs.Between.{MemoryStands, with_rest};
ghost use Rattle.act_refines.specs.Copied.{CopyFits};
ghost use Rattle.act_refines.specs.Does.{DoesAct, Nothing, frame_of};
ghost use Rattle.cell_laws.specs.Standing.{worked};
ghost use Rattle.devices.specs.Journal.{Place};
ghost use Rattle.layout_laws.specs.Layouts.{layout_of};
ghost use Rattle.line_code.specs.Fitting.{IsShort};
ghost use Rattle.run_plan.specs.Cells.{CopyValued, State};
ghost use Rattle.run_plan.specs.declared.act.Act.TheVariants as act;
ghost use Rattle.run_plan.specs.Finding.{statement_of};
ghost use Rattle.run_plan.specs.Small.{Doing, core_of};
ghost use Rattle.task_ast.specs.WellFormed.{IsOver, IsWellFormed, scope_of};
ghost use Rattle.task_ast.specs.declared.core_form.CoreEnd.{CoreEnd};
ghost use Rattle.task_ast.specs.declared.core_form.CoreExpr.{CoreExpr};
ghost use Rattle.task_ast.specs.declared.core_form.CoreStmt.TheVariants as stmt;
ghost use Rattle.word_code.specs.Finding.{statement_at};
ghost use Rattle.word_machine.specs.State.{Program};

use crate::memory::{memory_is_related_between_acts, words_in_between_keep_memory};
use act_laws::a_copy_is_valued;
use layout_laws::each_place_lies_in_its_area;
use ram_laws::{words_of_ram_leave_cells, words_of_ram_leave_constants};

/// A copy whose ends have room for its words, and whose class is that of its ends, keeps memory where it is noted.
pub fn a_copy_is_noted()
    ensures { (p : Program) (d : Doing) (m counts : ℕ → ℕ) (s : State) (v : CopyValued) → IsWellFormed (core_of d) → MemoryStands p d true m counts s → CopyFits d v
        → MemoryStands p d true (with_copy (layout_of (core_of d) (worked d.scheme s.bank)) v.to v.from v.length m) counts (with_rest (record s.frame { copy = Some v }) s.looks s.issued s) }
{
    words_of_ram_leave_cells();
    words_of_ram_leave_constants();
    each_place_lies_in_its_area();
}

/// The code of valuing a copy does its act: its ends, its length and its class are noted, or the first of ends and length that
/// traps does, or a length past a room.
pub fn a_copy_is_valued_as_planned()
    ensures { (p : Program) (place_of : ℕ → Place) (d : Doing) (number : ℕ) (keeps : Bool) (k : ℕ) (to from : CoreEnd) (words : CoreExpr) → statement_of d k ≡ Some (stmt.Copy k to from words) → statement_at (frame_of d number) k ≡ Some (stmt.Copy k to from words)
        → IsOverEnd (scope_of (core_of d) d.setting.task) to → IsOverEnd (scope_of (core_of d) d.setting.task) from → IsOver (scope_of (core_of d) d.setting.task) words → IsShort 0 words → DoesAct p place_of d number keeps (act.Value k) Nothing }
{
    a_copy_is_valued();
    a_copy_is_noted();
    words_in_between_keep_memory();
    memory_is_related_between_acts();
}
