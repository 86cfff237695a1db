//! What the words of FRAM have of a plan's cells, as the contracts of functions that do nothing (docs/CODE.md, "What is
//! proved").
ghost use Rattle.std.specs.Prelude.{◌≡◌, ◌≤◌, ◌-◌, ℕ, [], ◌∷◌, Some, slice_get};
ghost use Rattle.cell_laws.specs.Standing.{Stands, Fits, CommitFits, SealStands, address_of, word_of};
ghost use Rattle.fram_ram.specs.Memories.{put};
ghost use Rattle.run_plan.specs.Cells.{CellWrite, CopyValued, State, after_write, puts_class, puts_flag, puts_from, puts_length, puts_stamp, puts_state, puts_to, puts_value};
ghost use Rattle.task_ast.specs.WellFormed.{IsWellFormed};
ghost use Rattle.task_ast.specs.declared.core_form.Core.{Core};
ghost use Rattle.task_ast.specs.declared.core_form.CoreTask.{CoreTask};
ghost use Rattle.task_ast.specs.declared.core_form.Site.TheVariants as site;
ghost use Rattle.task_ast.specs.declared.tree.Ann.{Ann};
ghost use Rattle.word_isa.specs.declared.parts.Scheme.{Scheme};

use layout_laws::{each_place_lies_in_its_area, no_two_places_share_an_address};

/// Where the words of FRAM stand for a plan's cells, a write of the plan, but for a commit's, is one word at the cell's address,
/// and behind it the words stand for the cells again.
pub fn a_write_of_the_plan_is_one_word()
    ensures { (c : Core) (scheme : Scheme) (t : CoreTask) (m : ℕ → ℕ) (s : State) (w : CellWrite) → IsWellFormed c → Stands c scheme t m s → Fits c scheme t m s w
        → Stands c scheme t (put m (address_of c scheme s w) (word_of c scheme s w)) (after_write c.arrays w s) }
{
    each_place_lies_in_its_area();
    no_two_places_share_an_address();
}

/// A commit is one word too, and behind it the words stand for the cells of any next task, with no record that holds.
pub fn a_commit_is_one_word()
    ensures { (c : Core) (scheme : Scheme) (t next : CoreTask) (m : ℕ → ℕ) (s : State) (epoch task bank : ℕ) → IsWellFormed c → Stands c scheme t m s → CommitFits c scheme s epoch bank
        → Stands c scheme next (put m 0 (word_of c scheme s (puts_state epoch task bank))) (after_write c.arrays (puts_state epoch task bank) s) }
{
    each_place_lies_in_its_area();
}

/// A call's record is sealed by three words, its flag last: then the words stand for the cells, the record among them. The flag
/// alone, before the two others, would stand for a record that isn't there.
pub fn a_call_s_record_is_sealed()
    ensures { (c : Core) (scheme : Scheme) (t : CoreTask) (m : ℕ → ℕ) (s : State) (k word time : ℕ) (ann : Ann) → slice_get t.sites (k - 1) ≡ Some (site.Io ann)
        → SealStands c scheme t k (puts_value k word ∷ puts_stamp k time ∷ puts_flag k s.epoch ∷ []) m s }
{
    each_place_lies_in_its_area();
    no_two_places_share_an_address();
}

/// A block's, by two.
pub fn a_block_s_record_is_sealed()
    ensures { (c : Core) (scheme : Scheme) (t : CoreTask) (m : ℕ → ℕ) (s : State) (k time : ℕ) (ann : Ann) → slice_get t.sites (k - 1) ≡ Some (site.Block ann)
        → SealStands c scheme t k (puts_stamp k time ∷ puts_flag k s.epoch ∷ []) m s }
{
    each_place_lies_in_its_area();
    no_two_places_share_an_address();
}

/// And a copy's, by five.
pub fn a_copy_s_record_is_sealed()
    ensures { (c : Core) (scheme : Scheme) (t : CoreTask) (m : ℕ → ℕ) (s : State) (k : ℕ) (v : CopyValued) (n : ℕ) → slice_get t.sites (k - 1) ≡ Some (site.Copy n)
        → SealStands c scheme t k (puts_class k v.class ∷ puts_to k v.to ∷ puts_from k v.from ∷ puts_length k v.length ∷ puts_flag k s.epoch ∷ []) m s }
{
    each_place_lies_in_its_area();
    no_two_places_share_an_address();
}
