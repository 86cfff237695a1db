//! Memory goes on to stand for the plan's state, as the contracts of functions that do nothing (docs/CODE.md, "What is proved").
ghost use Rattle.std.specs.Prelude.{◌≡◌, ◌≢◌, ◌<◌, ◌≤◌, ℕ, Bool, List, None, Some, false, length, true};
ghost use Rattle.act_refines.specs.Between.{AreRelated, HasReadings, MemoryStands, WordFits, with_rest};
ghost use Rattle.act_laws.specs.Values.{with_arguments};
ghost use Rattle.cell_laws.specs.Standing.{Fits, address_in, address_of, word_of, worked};
ghost use Rattle.fram_ram.specs.Memories.{put};
ghost use Rattle.layout_laws.specs.Layouts.{layout_of};
ghost use Rattle.line_laws.specs.Gives.{is_temp};
ghost use Rattle.line_laws.specs.Relation.{Related, base_at, room_at};
ghost use Rattle.ram_laws.specs.Notes.{Note, NoteFits, after_note, cell_of, noted_word};
ghost use Rattle.run_plan.specs.Cells.{CellWrite, State, after_write};
ghost use Rattle.run_plan.specs.Small.{Doing, core_of};
ghost use Rattle.task_ast.specs.WellFormed.{IsWellFormed};
ghost use Rattle.walk_run.specs.declared.place.Place.{Place};
ghost use Rattle.word_machine.specs.State.{Program};
ghost use Rattle.word_machine.specs.Straight.{Spot};

use cell_laws::a_write_of_the_plan_is_one_word;
use ram_laws::{
    a_note_is_one_word, a_target_is_noted, a_write_of_the_plan_leaves_constants,
    a_write_of_the_plan_leaves_ram, arguments_are_noted, memory_is_related,
    words_in_between_leave_ram, words_of_ram_leave_cells, words_of_ram_leave_constants,
};

/// Where all of memory stands for a plan's state, it does so behind a write of the plan, which is one word.
pub fn a_write_keeps_memory()
    ensures { (p : Program) (d : Doing) (begun : Bool) (m counts : ℕ → ℕ) (s : State) (w : CellWrite) → IsWellFormed (core_of d)
        → MemoryStands p d begun m counts s → Fits (core_of d) d.scheme d.setting.task m s w → WordFits s w
        → MemoryStands p d begun (put m (address_of (core_of d) d.scheme s w) (word_of (core_of d) d.scheme s w)) counts (after_write (core_of d).arrays w s) }
{
    a_write_of_the_plan_is_one_word();
    a_write_of_the_plan_leaves_constants();
    a_write_of_the_plan_leaves_ram();
}

/// And behind a word that is noted in RAM, with looks used up and issues counted.
pub fn a_note_keeps_memory()
    ensures { (p : Program) (d : Doing) (m counts later : ℕ → ℕ) (s : State) (looks : List ℕ) (issued : ℕ → ℕ) (note : Note) → IsWellFormed (core_of d)
        → MemoryStands p d true m counts s → NoteFits note → HasReadings p d later issued
        → MemoryStands p d true (put m (cell_of note) (noted_word note)) later (with_rest (after_note note s.frame) looks issued s) }
{
    a_note_is_one_word();
    words_of_ram_leave_cells();
    words_of_ram_leave_constants();
}

/// Words in between, which the code of expressions leaves in RAM, make no difference.
pub fn words_in_between_keep_memory()
    ensures { (p : Program) (d : Doing) (m n counts : ℕ → ℕ) (s : State) → IsWellFormed (core_of d) → MemoryStands p d true m counts s → ((a : ℕ) → is_temp 0 a ≡ false → n a ≡ m a)
        → MemoryStands p d true n counts s }
{
    words_in_between_leave_ram();
    words_of_ram_leave_cells();
    words_of_ram_leave_constants();
}

/// Between acts the machine's memory is related to the store, as the laws on lines ask.
pub fn memory_is_related_between_acts()
    ensures { (p : Program) (d : Doing) (m : Spot) (s : State) → IsWellFormed (core_of d) → AreRelated p d true m s
        → Related (layout_of (core_of d) (worked d.scheme s.bank)) (length (core_of d).pointers) m s.store }
{
    memory_is_related();
}

/// The arguments of a call keep memory.
pub fn arguments_keep_memory()
    ensures { (p : Program) (d : Doing) (m counts : ℕ → ℕ) (s : State) (words : List ℕ) → IsWellFormed (core_of d) → MemoryStands p d true m counts s → length words ≤ 4
        → MemoryStands p d true (with_arguments words 33 m) counts (with_rest (record s.frame { args = Some words }) s.looks s.issued s) }
{
    arguments_are_noted();
    words_of_ram_leave_cells();
    words_of_ram_leave_constants();
}

/// So does the address of its target.
pub fn a_target_keeps_memory()
    ensures { (p : Program) (d : Doing) (m counts : ℕ → ℕ) (s : State) (at : Place) → IsWellFormed (core_of d) → MemoryStands p d true m counts s
        → at.index < room_at (layout_of (core_of d) (worked d.scheme s.bank)) at.array → base_at (layout_of (core_of d) (worked d.scheme s.bank)) at.array ≢ 0
        → MemoryStands p d true (put m 1048608 (address_in (core_of d) (worked d.scheme s.bank) at)) counts (with_rest (record s.frame { target = Some (Some at) }) s.looks s.issued s) }
{
    a_target_is_noted();
    words_of_ram_leave_cells();
    words_of_ram_leave_constants();
}

/// And where a call has none, nothing is written.
pub fn no_target_keeps_memory()
    ensures { (p : Program) (d : Doing) (m counts : ℕ → ℕ) (s : State) → IsWellFormed (core_of d) → MemoryStands p d true m counts s
        → MemoryStands p d true m counts (with_rest (record s.frame { target = Some None }) s.looks s.issued s) }
{
    words_of_ram_leave_cells();
    words_of_ram_leave_constants();
}

/// Where FRAM is the same, all that outlives a power failure is.
pub fn same_fram_keeps_cells()
    ensures { (p : Program) (d : Doing) (m n counts : ℕ → ℕ) (s : State) → IsWellFormed (core_of d) → MemoryStands p d false m counts s → ((a : ℕ) → a < 65536 → n a ≡ m a)
        → MemoryStands p d false n counts s }
{
    words_of_ram_leave_cells();
    words_of_ram_leave_constants();
}
