//! What the code of each act does of its act, as the contracts of functions that do nothing (docs/CODE.md, "What is proved").
ghost use Rattle.std.specs.Prelude.{◌≡◌, ◌-◌, ◌^◌, ◌<◌, ◌≤◌, ℕ, Bool, List, [], None, Option, Some, length, slice_get, slice_index_or, true, false};
ghost use Rattle.act_refines.specs.Does.{AimsWell, AreHomes, DoesAct, HasAim, Holds, IsAsKept, IsCalledWith, IsDue, IsEarlier, IsFree, MayCommit, Nothing, StatementFits, frame_of};
ghost use Rattle.act_laws.specs.Values.{AreArguments};
ghost use Rattle.cell_laws.specs.Standing.{IsSite};
ghost use Rattle.devices.specs.Journal.{Place};
ghost use Rattle.act_laws.specs.Words.{FitsLimit};
ghost use Rattle.run_plan.specs.declared.act.Act.{Act};
ghost use Rattle.run_plan.specs.declared.act.Act.TheVariants as act;
ghost use Rattle.run_plan.specs.Finding.{statement_of};
ghost use Rattle.run_plan.specs.Small.{Doing, core_of};
ghost use Rattle.devices.specs.Reading.{reading_in};
ghost use Rattle.line_code.specs.Fitting.{IsShort};
ghost use Rattle.line_laws.specs.Suits.{IsOverTarget};
ghost use Rattle.io_flow.specs.Written.{Covers};
ghost use Rattle.task_ast.specs.Pointing.{addresses, pointing};
ghost use Rattle.task_ast.specs.WellFormed.{IsCoreStmt, IsOver, scope_of};
ghost use Rattle.task_ast.specs.declared.core_form.CoreStmt.{CoreStmt};
ghost use Rattle.task_ast.specs.declared.core_form.CoreExpr.{CoreExpr};
ghost use Rattle.task_ast.specs.declared.core_form.CoreStmt.TheVariants as stmt;
ghost use Rattle.task_ast.specs.declared.core_form.CoreTarget.{CoreTarget};
ghost use Rattle.task_attempts.specs.Calls.{number_of};
ghost use Rattle.word_code.specs.Finding.{statement_at};
ghost use Rattle.task_ast.specs.declared.core_form.Site.TheVariants as site;
ghost use Rattle.task_ast.specs.declared.tree.Ann.{Ann};
ghost use Rattle.word_isa.specs.declared.parts.Scheme.TheVariants.{Undo};
ghost use Rattle.word_machine.specs.State.{Program};

use crate::memory::{
    a_note_keeps_memory, a_target_keeps_memory, a_write_keeps_memory, arguments_keep_memory,
    memory_is_related_between_acts, no_target_keeps_memory, same_fram_keeps_cells,
    words_in_between_keep_memory,
};
use act_laws::{
    a_block_is_entered, a_block_is_left, a_block_is_sealed, a_call_chooses, a_call_is_issued,
    a_call_is_sealed, a_call_is_valued, a_call_with_a_target_is_valued, a_copy_chooses,
    a_copy_goes_by_its_class, a_copy_is_sealed, a_kept_word_is_taken, a_lock_is_set,
    a_look_keeps_the_time, a_record_is_dropped, a_region_is_restored, a_region_is_saved,
    a_statement_stays_within_its_weight, a_test_goes_by_its_word, a_word_is_written,
    a_word_without_a_target_is_not_written, an_attempt_begins, an_instance_is_committed,
};
use cell_laws::a_commit_is_one_word;
use layout_laws::{
    each_place_lies_in_its_area, every_statement_suits_its_layout, no_place_is_a_cell_of_the_code,
    no_two_places_share_an_address,
};

/// The code of a lock does its act.
pub fn a_lock_is_set_as_planned()
    ensures { (p : Program) (place_of : ℕ → Place) (d : Doing) (number : ℕ) (keeps : Bool) (r : ℕ) → r ≤ 128 → DoesAct p place_of d number keeps (act.Lock r) Nothing }
{
    a_lock_is_set();
    a_write_keeps_memory();
}

/// That of dropping a record does.
pub fn a_record_is_dropped_as_planned()
    ensures { (p : Program) (place_of : ℕ → Place) (d : Doing) (number : ℕ) (keeps : Bool) (k : ℕ) → IsSite k → DoesAct p place_of d number keeps (act.Drop k) Nothing }
{
    a_record_is_dropped();
    a_write_keeps_memory();
}

/// That of a look does, where the next of the plan's looks is the machine's clock.
pub fn a_look_is_as_planned()
    ensures { (p : Program) (place_of : ℕ → Place) (d : Doing) (number : ℕ) (keeps : Bool) (k : ℕ) → DoesAct p place_of d number keeps (act.Look k) IsDue }
{
    a_look_keeps_the_time();
    a_note_keeps_memory();
}

/// That of sealing a call's record does, where no record holds: its word and its time, and the flag last.
pub fn a_call_is_sealed_as_planned()
    ensures { (p : Program) (place_of : ℕ → Place) (d : Doing) (number : ℕ) (keeps : Bool) (k : ℕ) (ann : Ann) → IsSite k → slice_get d.setting.task.sites (k - 1) ≡ Some (site.Io ann)
        → DoesAct p place_of d number keeps (act.Seal k) (IsFree k) }
{
    a_call_is_sealed();
    a_write_keeps_memory();
}

/// And of a block's.
pub fn a_block_is_sealed_as_planned()
    ensures { (p : Program) (place_of : ℕ → Place) (d : Doing) (number : ℕ) (keeps : Bool) (k : ℕ) (ann : Ann) → IsSite k → slice_get d.setting.task.sites (k - 1) ≡ Some (site.Block ann)
        → DoesAct p place_of d number keeps (act.Seal k) (IsFree k) }
{
    a_block_is_sealed();
    a_write_keeps_memory();
}

/// That of taking a call's kept word does, where the record holds.
pub fn a_kept_word_is_taken_as_planned()
    ensures { (p : Program) (place_of : ℕ → Place) (d : Doing) (number : ℕ) (keeps : Bool) (k : ℕ) (ann : Ann) → IsSite k → slice_get d.setting.task.sites (k - 1) ≡ Some (site.Io ann)
        → DoesAct p place_of d number keeps (act.Take k) (Holds k) }
{
    a_kept_word_is_taken();
    a_note_keeps_memory();
}

/// That of a commit does, where the next epoch fits: it is one word, and behind it memory stands for what any next task begins
/// with.
pub fn an_instance_is_committed_as_planned()
    ensures { (p : Program) (place_of : ℕ → Place) (d : Doing) (number : ℕ) (keeps : Bool) (task : ℕ) → task < 128 → DoesAct p place_of d number keeps (act.Commit task) MayCommit }
{
    an_instance_is_committed();
    a_commit_is_one_word();
    each_place_lies_in_its_area();
}

/// That of a call's choice does: it goes into the list that its record, the mode and its look's time choose.
pub fn a_call_chooses_as_planned()
    ensures { (p : Program) (place_of : ℕ → Place) (d : Doing) (number : ℕ) (keeps : Bool) (k : ℕ) (ann : Ann) (issue keep : List Act) → IsSite k → slice_get d.setting.task.sites (k - 1) ≡ Some (site.Io ann) → FitsLimit ann
        → DoesAct p place_of d number keeps (act.Choose k issue keep) (IsEarlier k) }
{
    a_call_chooses();
}

/// That of a copy's choice does: it goes by whether it has a record.
pub fn a_copy_chooses_as_planned()
    ensures { (p : Program) (place_of : ℕ → Place) (d : Doing) (number : ℕ) (keeps : Bool) (k most : ℕ) (issue keep : List Act) → IsSite k → slice_get d.setting.task.sites (k - 1) ≡ Some (site.Copy most)
        → DoesAct p place_of d number keeps (act.Choose k issue keep) Nothing }
{
    a_copy_chooses();
}

/// That of a block's beginning does.
pub fn a_block_is_entered_as_planned()
    ensures { (p : Program) (place_of : ℕ → Place) (d : Doing) (number : ℕ) (keeps : Bool) (k : ℕ) (ann : Ann) → IsSite k → slice_get d.setting.task.sites (k - 1) ≡ Some (site.Block ann) → FitsLimit ann
        → DoesAct p place_of d number keeps (act.Enter k) (IsEarlier k) }
{
    a_block_is_entered();
    a_note_keeps_memory();
}

/// And that of its end: the mode outside is back, and a block that didn't keep goes into its list.
pub fn a_block_is_left_as_planned()
    ensures { (p : Program) (place_of : ℕ → Place) (d : Doing) (number : ℕ) (keeps : Bool) (k : ℕ) (acts : List Act) → IsSite k → DoesAct p place_of d number keeps (act.Leave k acts) Nothing }
{
    a_block_is_left();
    a_note_keeps_memory();
}

/// That of sealing a copy's record does: its class, its ends and its length, and the flag last.
pub fn a_copy_is_sealed_as_planned()
    ensures { (p : Program) (place_of : ℕ → Place) (d : Doing) (number : ℕ) (keeps : Bool) (k most : ℕ) → IsSite k → slice_get d.setting.task.sites (k - 1) ≡ Some (site.Copy most)
        → DoesAct p place_of d number keeps (act.Seal k) (IsFree k) }
{
    a_copy_is_sealed();
    a_write_keeps_memory();
}

/// That of a copy's classes does: it goes into the list of the record's class where it keeps, else of the class as it was valued.
pub fn a_copy_goes_by_its_class_as_planned()
    ensures { (p : Program) (place_of : ℕ → Place) (d : Doing) (number : ℕ) (keeps : Bool) (k most : ℕ) (single private rest : List Act) → IsSite k → slice_get d.setting.task.sites (k - 1) ≡ Some (site.Copy most)
        → DoesAct p place_of d number keeps (act.ByClass k single private rest) (IsAsKept keeps k) }
{
    a_copy_goes_by_its_class();
}

/// That of saving a region does, under `undo`: unless its lock holds, each word that the region may write first goes aside.
pub fn a_region_is_saved_as_planned()
    ensures { (p : Program) (place_of : ℕ → Place) (d : Doing) (number : ℕ) (keeps : Bool) (r : ℕ) → r ≤ 128 → d.scheme ≡ Undo → AreHomes (core_of d) (slice_index_or d.firsts r [])
        → DoesAct p place_of d number keeps (act.Save r) Nothing }
{
    a_region_is_saved();
    a_write_keeps_memory();
}

/// And of restoring one of the task's regions: where its lock holds, each such word comes home.
pub fn a_region_is_restored_as_planned()
    ensures { (p : Program) (place_of : ℕ → Place) (d : Doing) (number : ℕ) (keeps : Bool) (r : ℕ) → r ≤ 128 → r < length d.firsts → d.scheme ≡ Undo → AreHomes (core_of d) (slice_index_or d.firsts r [])
        → DoesAct p place_of d number keeps (act.Restore r) Nothing }
{
    a_region_is_restored();
    a_write_keeps_memory();
}

/// That of a test does: it goes into the list that its condition's word says, or to the condition's trap.
pub fn a_test_goes_as_planned()
    ensures { (p : Program) (place_of : ℕ → Place) (d : Doing) (number : ℕ) (keeps : Bool) (e : CoreExpr) (first second : List Act) → IsOver (scope_of (core_of d) d.setting.task) e → IsShort 0 e
        → DoesAct p place_of d number keeps (act.Test e first second) Nothing }
{
    a_test_goes_by_its_word();
    words_in_between_keep_memory();
    memory_is_related_between_acts();
}

/// That of valuing a call without a target does: its arguments are noted, or the first that traps does.
pub fn a_call_is_valued_as_planned()
    ensures { (p : Program) (place_of : ℕ → Place) (d : Doing) (number : ℕ) (keeps : Bool) (k q : ℕ) (es : List CoreExpr) → statement_of d k ≡ Some (stmt.Io k None q es) → statement_at (frame_of d number) k ≡ Some (stmt.Io k None q es)
        → AreArguments (scope_of (core_of d) d.setting.task) es → length es ≤ 4 → DoesAct p place_of d number keeps (act.Value k) Nothing }
{
    a_call_is_valued();
    words_in_between_keep_memory();
    memory_is_related_between_acts();
    arguments_keep_memory();
    no_target_keeps_memory();
}

/// And with a target, whose address is noted first.
pub fn a_call_with_a_target_is_valued_as_planned()
    ensures { (p : Program) (place_of : ℕ → Place) (d : Doing) (number : ℕ) (keeps : Bool) (k q : ℕ) (target : CoreTarget) (es : List CoreExpr) → statement_of d k ≡ Some (stmt.Io k (Some target) q es) → statement_at (frame_of d number) k ≡ Some (stmt.Io k (Some target) q es)
        → IsOverTarget (scope_of (core_of d) d.setting.task) target → AreArguments (scope_of (core_of d) d.setting.task) es → length es ≤ 4 → DoesAct p place_of d number keeps (act.Value k) (AimsWell (core_of d) target) }
{
    a_call_with_a_target_is_valued();
    words_in_between_keep_memory();
    memory_is_related_between_acts();
    arguments_keep_memory();
    a_target_keeps_memory();
}

/// That of an issue does, where as many arguments were noted as the call has: it shows them and the next reading, which is noted.
pub fn a_call_is_issued_as_planned()
    ensures { (p : Program) (place_of : ℕ → Place) (d : Doing) (number : ℕ) (keeps : Bool) (k q : ℕ) (target : Option CoreTarget) (es : List CoreExpr) → statement_of d k ≡ Some (stmt.Io k target q es) → statement_at (frame_of d number) k ≡ Some (stmt.Io k target q es)
        → length es ≤ 4 → number_of d.setting q < 256 → ((r n : ℕ) → reading_in d.setting.rules.world.feeds r n < 2 ^ 32) → DoesAct p place_of d number keeps (act.Issue k) (IsCalledWith (length es)) }
{
    a_call_is_issued();
    a_note_keeps_memory();
}

/// That of a statement without sites does: the homes that it writes are seen in order, and behind them volatile words and pointers
/// are as it leaves them; or it traps behind its writes.
pub fn a_statement_is_done_as_planned()
    ensures { (p : Program) (place_of : ℕ → Place) (d : Doing) (number : ℕ) (keeps : Bool) (level : ℕ) (branched : Bool) (turning : List ℕ) (x : CoreStmt) → IsCoreStmt (scope_of (core_of d) d.setting.task) level branched turning x
        → Covers (pointing d.setting.task) (λ q. addresses q x) → DoesAct p place_of d number keeps (act.Plain x) (StatementFits d x) }
{
    a_statement_stays_within_its_weight();
    every_statement_suits_its_layout();
    no_two_places_share_an_address();
    each_place_lies_in_its_area();
    a_write_keeps_memory();
    same_fram_keeps_cells();
    memory_is_related_between_acts();
}

/// That of writing a call's word does, where its target was noted: to a home, which is seen, or to a volatile word.
pub fn a_word_is_written_as_planned()
    ensures { (p : Program) (place_of : ℕ → Place) (d : Doing) (number : ℕ) (keeps : Bool) (k q : ℕ) (target : CoreTarget) (args : List CoreExpr) → statement_at (frame_of d number) k ≡ Some (stmt.Io k (Some target) q args)
        → DoesAct p place_of d number keeps (act.Write k) (HasAim true) }
{
    a_word_is_written();
    a_write_keeps_memory();
    same_fram_keeps_cells();
    memory_is_related_between_acts();
    no_two_places_share_an_address();
    no_place_is_a_cell_of_the_code();
    each_place_lies_in_its_area();
}

/// And where a call has no target, it writes nothing.
pub fn a_word_without_a_target_is_not_written_as_planned()
    ensures { (p : Program) (place_of : ℕ → Place) (d : Doing) (number : ℕ) (keeps : Bool) (k q : ℕ) (args : List CoreExpr) → statement_at (frame_of d number) k ≡ Some (stmt.Io k None q args)
        → DoesAct p place_of d number keeps (act.Write k) (HasAim false) }
{
    a_word_without_a_target_is_not_written();
}

/// That of an attempt's beginning does, under `undo`: it shows its event, and behind it RAM stands for volatile words as they are
/// declared, pointers at nothing, and the mode Own.
pub fn an_attempt_begins_as_planned()
    ensures { (p : Program) (place_of : ℕ → Place) (d : Doing) (number : ℕ) (keeps : Bool) (task : ℕ) → d.scheme ≡ Undo → DoesAct p place_of d number keeps (act.Begin task) Nothing }
{
    an_attempt_begins();
    same_fram_keeps_cells();
}
