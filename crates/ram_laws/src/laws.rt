//! What RAM and the constants have of a plan's state, as the contracts of functions that do nothing (docs/CODE.md, "What is
//! proved").
ghost use Rattle.std.specs.Prelude.{◌≡◌, ◌≢◌, ◌+◌, ◌≤◌, ◌<◌, ℕ, List, Some, length};
ghost use Rattle.act_laws.specs.Values.{with_arguments};
ghost use Rattle.cell_laws.specs.Standing.{Fits, HasHomes, Stands, address_in, address_of, word_of, worked};
ghost use Rattle.fram_ram.specs.Memories.{put};
ghost use Rattle.layout_laws.specs.Layouts.{layout_of};
ghost use Rattle.line_laws.specs.Relation.{Related, base_at, room_at};
ghost use Rattle.ram_laws.specs.Notes.{Note, NoteFits, after_note, cell_of, noted_word};
ghost use Rattle.ram_laws.specs.Ram.{AreWhole, HasBases, HasConstants, HasRam, RamStands};
ghost use Rattle.run_plan.specs.Cells.{CellWrite, Frame, State, after_write};
ghost use Rattle.task_ast.specs.WellFormed.{IsWellFormed};
ghost use Rattle.task_ast.specs.declared.core_form.Core.{Core};
ghost use Rattle.task_ast.specs.declared.core_form.CoreTask.{CoreTask};
ghost use Rattle.walk_run.specs.declared.place.Place.{Place};
ghost use Rattle.walk_run.specs.Store.{Store, word_at};
ghost use Rattle.word_isa.specs.declared.parts.Scheme.{Scheme};
ghost use Rattle.word_machine.specs.Straight.{Spot};

use layout_laws::{each_place_lies_in_its_area, no_place_is_a_cell_of_the_code};

/// A write of the plan is a word of FRAM that no constant has, so it leaves constants as they are.
pub fn a_write_of_the_plan_leaves_constants()
    ensures { (c : Core) (scheme : Scheme) (t : CoreTask) (m : ℕ → ℕ) (s : State) (w : CellWrite) → IsWellFormed c → Fits c scheme t m s w → HasConstants c m s.store
        → HasConstants c (put m (address_of c scheme s w) (word_of c scheme s w)) (after_write c.arrays w s).store }
{
    each_place_lies_in_its_area();
}

/// And it leaves all that RAM has: volatile arrays, pointers, and what was noted between acts.
pub fn a_write_of_the_plan_leaves_ram()
    ensures { (c : Core) (scheme : Scheme) (t : CoreTask) (m : ℕ → ℕ) (s : State) (w : CellWrite) → IsWellFormed c → Fits c scheme t m s w → RamStands c scheme m s
        → RamStands c scheme (put m (address_of c scheme s w) (word_of c scheme s w)) (after_write c.arrays w s) }
{
    each_place_lies_in_its_area();
}

/// What an act notes is one word at the note's cell, and behind it RAM has that and all that it had.
pub fn a_note_is_one_word()
    ensures { (c : Core) (bank : ℕ) (m : ℕ → ℕ) (store : Store) (f : Frame) (note : Note) → IsWellFormed c → HasRam c bank m store f → NoteFits note
        → HasRam c bank (put m (cell_of note) (noted_word note)) store (after_note note f) }
{
    each_place_lies_in_its_area();
}

/// The arguments of a call go to cells of their own, and behind them RAM has them and all that it had.
pub fn arguments_are_noted()
    ensures { (c : Core) (bank : ℕ) (m : ℕ → ℕ) (store : Store) (f : Frame) (words : List ℕ) → IsWellFormed c → HasRam c bank m store f → length words ≤ 4
        → HasRam c bank (with_arguments words 33 m) store (record f { args = Some words }) }
{
    each_place_lies_in_its_area();
}

/// So does the address of a target, a place that may be written.
pub fn a_target_is_noted()
    ensures { (c : Core) (bank : ℕ) (m : ℕ → ℕ) (store : Store) (f : Frame) (at : Place) → IsWellFormed c → HasRam c bank m store f → at.index < room_at (layout_of c bank) at.array → base_at (layout_of c bank) at.array ≢ 0
        → HasRam c bank (put m 1048608 (address_in c bank at)) store (record f { target = Some (Some at) }) }
{
    each_place_lies_in_its_area();
}

/// The cells for words in between belong to nothing that RAM has.
pub fn words_in_between_leave_ram()
    ensures { (c : Core) (bank : ℕ) (m n : ℕ → ℕ) (store : Store) (f : Frame) → IsWellFormed c → HasRam c bank m store f → ((a : ℕ) → 1048608 ≤ a → n a ≡ m a)
        → HasRam c bank n store f }
{
    each_place_lies_in_its_area();
}

/// With the homes and the constants in FRAM, what RAM has is what the laws on lines ask of memory: it is related to the store.
pub fn memory_is_related()
    ensures { (c : Core) (bank : ℕ) (m : Spot) (store : Store) (f : Frame) → IsWellFormed c → bank ≤ 2048 → HasBases bank m → AreWhole c 14 store
        → HasHomes c bank m.store (word_at store) → HasConstants c m.store store → HasRam c bank m.store store f
        → Related (layout_of c bank) (length c.pointers) m store }
{
    no_place_is_a_cell_of_the_code();
}

/// Words outside FRAM belong to no cell that outlives a power failure.
pub fn words_of_ram_leave_cells()
    ensures { (c : Core) (scheme : Scheme) (t : CoreTask) (m n : ℕ → ℕ) (s : State) → IsWellFormed c → Stands c scheme t m s → ((a : ℕ) → a < 65536 → n a ≡ m a)
        → Stands c scheme t n s }
{
    each_place_lies_in_its_area();
}

/// And to no constant.
pub fn words_of_ram_leave_constants()
    ensures { (c : Core) (m n : ℕ → ℕ) (store : Store) → IsWellFormed c → HasConstants c m store → ((a : ℕ) → a < 65536 → n a ≡ m a)
        → HasConstants c n store }
{
    each_place_lies_in_its_area();
}
