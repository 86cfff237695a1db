//! What holds of every run, as the contracts of functions that do nothing.
ghost use Rattle.std.specs.Prelude.{◌≡◌, ◌≢◌, ◌+◌, ◌<◌, ◌≤◌, ◌↔◌, ℕ, List, [], Some, length, slice_get};
ghost use Rattle.std.specs.List.{AllByRecursion};
ghost use Rattle.task_ast.specs.declared.core_form.CoreTask.{CoreTask};
ghost use Rattle.task_ast.specs.WellFormed.{IsWellFormed};
ghost use Rattle.walk_run.specs.declared.place.Place.{Place};
ghost use Rattle.walk_run.specs.declared.trap.Trap.{Trap as TrapOf};
ghost use Rattle.walk_run.specs.Laws.{IsFront, HasSizes, next_after, outcome_store, HasItsConstants, HasNoSites, AreAlike};
ghost use Rattle.walk_run.specs.Outcome.{task_outcome};
ghost use Rattle.walk_run.specs.Plain.{store_left, plain_done};
ghost use Rattle.walk_run.specs.PlainWrites.{after_writes, plain_writes};
ghost use Rattle.walk_run.specs.Store.{Store, Fits, IsInside, declared_store, pointed, put_pointer, put_word, word_at, words_of};
ghost use Rattle.walk_run.specs.Walk.{walk_of};

use crate::trap::Trap;
use crate::walked::WalkEnd;
use task_ast::{Core, CoreStmt};

/// The states of a run are a front of those of the run of one task more.
#[tactic(auto, using(crate::proofs::RunLaws::longer_run))]
pub fn a_run_is_a_front_of_longer_runs(c: &Core, readings: &[u32], tasks: u32)
    ensures { IsFront (walk_of c.now readings.now tasks).states (walk_of c.now readings.now (tasks + 1)).states }
{}

/// How a run ends, told by its states: stopped exactly where its last task stopped, at the limit exactly where
/// all tasks ended and none stopped, and by a trap or for want of a reading only where a task was left to do.
pub fn the_states_tell_the_end(c: &Core, readings: &[u32], tasks: u32)
    requires { IsWellFormed c.now }
    ensures few { length (walk_of c.now readings.now tasks).states ≤ tasks }
    ensures stopped { ((walk_of c.now readings.now tasks).end ≡ WalkEnd.Stopped)
        ↔ (next_after 1 (walk_of c.now readings.now tasks).states ≡ 0) }
    ensures limit { ((walk_of c.now readings.now tasks).end ≡ WalkEnd.Limit)
        ↔ ((length (walk_of c.now readings.now tasks).states ≡ tasks)
        × (next_after 1 (walk_of c.now readings.now tasks).states ≢ 0)) }
    ensures trapped { (trap : TrapOf) → (walk_of c.now readings.now tasks).end ≡ WalkEnd.Trapped trap
        → length (walk_of c.now readings.now tasks).states < tasks }
    ensures reading { (walk_of c.now readings.now tasks).end ≡ WalkEnd.NoReading
        → length (walk_of c.now readings.now tasks).states < tasks }
{}

/// A run traps at a pointer only where the program has one, and by a copy's range or for want of a reading only where
/// it has sites.
pub fn a_run_ends_only_as_its_program_may(c: &Core, readings: &[u32], tasks: u32)
    requires { IsWellFormed c.now }
    ensures unset { c.now.pointers ≡ [] → (walk_of c.now readings.now tasks).end ≢ WalkEnd.Trapped Trap.Unset }
    ensures range { HasNoSites c.now → (walk_of c.now readings.now tasks).end ≢ WalkEnd.Trapped Trap.Range }
    ensures reading { HasNoSites c.now → (walk_of c.now readings.now tasks).end ≢ WalkEnd.NoReading }
{}

/// Each state has as many words of each array as are declared.
#[tactic(auto, using(crate::proofs::StateShapes::states_sized))]
pub fn every_state_has_the_declared_sizes(c: &Core, readings: &[u32], tasks: u32)
    ensures { AllByRecursion (HasSizes c.now.arrays) (walk_of c.now readings.now tasks).states }
{}

/// A store of a program stays one over each task, also where the run ends within it.
pub fn a_store_keeps_its_shape(c: &Core)
    ensures { (t : CoreTask) (store : Store) (readings : List ℕ) → Fits c.now store → Fits c.now (outcome_store (task_outcome c.now t store readings)) }
{}

/// A constant is at the start as it is declared, and never changes.
pub fn a_constant_never_changes(c: &Core)
    requires { IsWellFormed c.now }
    ensures first { HasItsConstants c.now (declared_store c.now) }
    ensures task { (n : ℕ) (t : CoreTask) → slice_get c.now.tasks n ≡ Some t → (store : Store) (readings : List ℕ)
        → HasItsConstants c.now store → HasItsConstants c.now (outcome_store (task_outcome c.now t store readings)) }
{}

/// What a task does depends on the nonvolatile words alone.
pub fn a_task_depends_on_the_nonvolatile_words_alone(c: &Core)
    ensures { (t : CoreTask) (x y : Store) (readings : List ℕ) → Fits c.now x → Fits c.now y → AreAlike c.now x y
        → task_outcome c.now t x readings ≡ task_outcome c.now t y readings }
{}

/// The writes of a statement without sites, one after another, give the store that it leaves, at a trap too.
#[tactic(auto, using(crate::specs::WriteLaws::plain_gives))]
pub fn writes_give_the_store(s: &CoreStmt)
    ensures { (store : Store) → after_writes (plain_writes s.now store) store ≡ store_left (plain_done s.now store) }
{}

/// What is read after a write: the place or the pointer that was written has what was written, each other what it
/// had, and each array has as many words as before.
#[tactic(auto, using(crate::specs::StoreLaws::word_same, crate::specs::StoreLaws::word_other, crate::specs::StoreLaws::rooms_stay, crate::specs::StoreLaws::pointed_same, crate::specs::StoreLaws::pointed_other))]
pub fn reads_see_the_last_write()
    ensures word_same { (at : Place) (word : ℕ) (store : Store) → IsInside store at → word_at (put_word at word store) at ≡ word }
    ensures word_other { (at : Place) (word : ℕ) (store : Store) (other : Place) → ((other.array ≡ at.array) × (other.index ≡ at.index) → ⊥)
        → word_at (put_word at word store) other ≡ word_at store other }
    ensures rooms { (at : Place) (word : ℕ) (store : Store) (array : ℕ) → length (words_of (put_word at word store) array) ≡ length (words_of store array) }
    ensures pointer_same { (pointer : ℕ) (at : Place) (store : Store) → pointer < length store.pointers → pointed (put_pointer pointer at store) pointer ≡ Some at }
    ensures pointer_other { (pointer : ℕ) (at : Place) (store : Store) (other : ℕ) → other ≢ pointer → pointed (put_pointer pointer at store) other ≡ pointed store other }
{}
