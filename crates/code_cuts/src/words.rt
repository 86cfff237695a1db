//! The words of a copy are moved in cuts, as the contracts of functions that do nothing (docs/CODE.md, "Cuts").
ghost use Rattle.std.specs.Prelude.{◌≡◌, ◌-◌, ℕ, Bool, Some, slice_get};
ghost use Rattle.cell_laws.specs.Standing.{IsSite};
ghost use Rattle.code_cuts.specs.Acts.{CutsAct};
ghost use Rattle.code_cuts.specs.Asked.{KeepsCopy, MovesCopy, PutsCopy};
ghost use Rattle.devices.specs.Journal.{Place};
ghost use Rattle.run_plan.specs.declared.act.Act.TheVariants as act;
ghost use Rattle.run_plan.specs.declared.act.Leg.TheVariants as leg;
ghost use Rattle.run_plan.specs.Small.{Doing};
ghost use Rattle.task_ast.specs.declared.core_form.Site.TheVariants as site;
ghost use Rattle.word_machine.specs.State.{Program};

use act_refines::{a_write_keeps_memory, memory_is_related_between_acts, same_fram_keeps_cells};
use layout_laws::{each_place_lies_in_its_area, no_two_places_share_an_address};

/// Keeping a copy's words is cut well, between any two of them, where the copy was valued and the kept words have room.
pub fn kept_words_are_cut_well()
    ensures { (p : Program) (place_of : ℕ → Place) (d : Doing) (number : ℕ) (keeps : Bool) (k : ℕ) → CutsAct p place_of d number keeps (act.KeepWords k) (KeepsCopy d k) }
{
    a_write_keeps_memory();
    memory_is_related_between_acts();
    same_fram_keeps_cells();
}

/// So is putting them, where the record holds and its destination may be written.
pub fn put_words_are_cut_well()
    ensures { (p : Program) (place_of : ℕ → Place) (d : Doing) (number : ℕ) (keeps : Bool) (k : ℕ) → CutsAct p place_of d number keeps (act.PutWords k) (PutsCopy d k) }
{
    a_write_keeps_memory();
    each_place_lies_in_its_area();
    memory_is_related_between_acts();
    no_two_places_share_an_address();
    same_fram_keeps_cells();
}

/// The engine's transfer to the kept words is: the copy is seen with its last word.
pub fn words_that_go_aside_are_cut_well()
    ensures { (p : Program) (place_of : ℕ → Place) (d : Doing) (number : ℕ) (keeps : Bool) (k : ℕ) → CutsAct p place_of d number keeps (act.Transfer k leg.ToKept) (KeepsCopy d k) }
{
    a_write_keeps_memory();
    memory_is_related_between_acts();
    same_fram_keeps_cells();
}

/// From them it is, with the last word that goes to a home, or alone where all go to volatile words.
pub fn words_that_come_back_are_cut_well()
    ensures { (p : Program) (place_of : ℕ → Place) (d : Doing) (number : ℕ) (keeps : Bool) (k most : ℕ) → IsSite k → slice_get d.setting.task.sites (k - 1) ≡ Some (site.Copy most)
        → CutsAct p place_of d number keeps (act.Transfer k leg.FromKept) (PutsCopy d k) }
{
    a_write_keeps_memory();
    each_place_lies_in_its_area();
    memory_is_related_between_acts();
    no_two_places_share_an_address();
    same_fram_keeps_cells();
}

/// And across it is, whose ends may overlap.
pub fn words_that_go_across_are_cut_well()
    ensures { (p : Program) (place_of : ℕ → Place) (d : Doing) (number : ℕ) (keeps : Bool) (k : ℕ) → CutsAct p place_of d number keeps (act.Transfer k leg.Across) (MovesCopy d) }
{
    a_write_keeps_memory();
    each_place_lies_in_its_area();
    memory_is_related_between_acts();
    no_two_places_share_an_address();
    same_fram_keeps_cells();
}
