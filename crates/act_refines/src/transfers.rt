//! What the code of a copy's words does of its acts, as the contracts of functions that do nothing (docs/CODE.md, "What is proved").
ghost use Rattle.std.specs.Prelude.{◌≡◌, ◌-◌, ℕ, Bool, Some, slice_get};
ghost use Rattle.act_refines.specs.Does.{DoesAct};
ghost use Rattle.act_refines.specs.Moves.{ComesFromKept, GoesAcross, GoesToKept, IsRecorded, IsRoomFor};
ghost use Rattle.cell_laws.specs.Standing.{IsSite};
ghost use Rattle.devices.specs.Journal.{Place};
ghost use Rattle.run_plan.specs.declared.act.Act.TheVariants as act;
ghost use Rattle.run_plan.specs.declared.act.Leg.TheVariants as leg;
ghost use Rattle.run_plan.specs.Small.{Doing};
ghost use Rattle.task_ast.specs.declared.core_form.Site.TheVariants as site;
ghost use Rattle.word_machine.specs.State.{Program};

use crate::memory::{a_write_keeps_memory, memory_is_related_between_acts, same_fram_keeps_cells};
use act_laws::{
    kept_words_are_put, words_are_kept, words_come_back, words_go_across, words_go_aside,
};
use layout_laws::{each_place_lies_in_its_area, no_two_places_share_an_address};

/// The code of keeping a copy's words does its act, where the kept words have room: the words at the destination go there in order.
pub fn words_are_kept_as_planned()
    ensures { (p : Program) (place_of : ℕ → Place) (d : Doing) (number : ℕ) (keeps : Bool) (k : ℕ) → DoesAct p place_of d number keeps (act.KeepWords k) (IsRoomFor d k) }
{
    words_are_kept();
    a_write_keeps_memory();
    memory_is_related_between_acts();
}

/// That of putting them does, where the record holds: they are shown by their number and go to the record's destination in order.
pub fn kept_words_are_put_as_planned()
    ensures { (p : Program) (place_of : ℕ → Place) (d : Doing) (number : ℕ) (keeps : Bool) (k most : ℕ) → IsSite k → slice_get d.setting.task.sites (k - 1) ≡ Some (site.Copy most)
        → DoesAct p place_of d number keeps (act.PutWords k) (IsRecorded d k) }
{
    kept_words_are_put();
    a_write_keeps_memory();
    same_fram_keeps_cells();
    memory_is_related_between_acts();
    no_two_places_share_an_address();
    each_place_lies_in_its_area();
}

/// That of moving a copy's words to the kept words does, where these have room: the event comes with the last.
pub fn words_go_aside_as_planned()
    ensures { (p : Program) (place_of : ℕ → Place) (d : Doing) (number : ℕ) (keeps : Bool) (k : ℕ) → DoesAct p place_of d number keeps (act.Transfer k leg.ToKept) (GoesToKept place_of d k) }
{
    words_go_aside();
    a_write_keeps_memory();
    memory_is_related_between_acts();
}

/// That of moving them from there does, where the record holds: to homes, which is seen, or to volatile words.
pub fn words_come_back_as_planned()
    ensures { (p : Program) (place_of : ℕ → Place) (d : Doing) (number : ℕ) (keeps : Bool) (k most : ℕ) → IsSite k → slice_get d.setting.task.sites (k - 1) ≡ Some (site.Copy most)
        → DoesAct p place_of d number keeps (act.Transfer k leg.FromKept) (ComesFromKept place_of d k) }
{
    words_come_back();
    a_write_keeps_memory();
    same_fram_keeps_cells();
    memory_is_related_between_acts();
    no_two_places_share_an_address();
    each_place_lies_in_its_area();
}

/// And that of moving them across does, whose ends may overlap: each word is read at its own turn.
pub fn words_go_across_as_planned()
    ensures { (p : Program) (place_of : ℕ → Place) (d : Doing) (number : ℕ) (keeps : Bool) (k : ℕ) → DoesAct p place_of d number keeps (act.Transfer k leg.Across) (GoesAcross place_of d) }
{
    words_go_across();
    a_write_keeps_memory();
    same_fram_keeps_cells();
    memory_is_related_between_acts();
    no_two_places_share_an_address();
    each_place_lies_in_its_area();
}
