//! Copies lead on, as the contract of a function that does nothing (docs/CODE.md, "What is proved").
ghost use Rattle.std.specs.Prelude.{◌≡◌, ℕ, Some};
ghost use Rattle.site_runs.specs.Copies.{CopiesLead};
ghost use Rattle.site_runs.specs.Told.{TellsPlaces};
ghost use Rattle.devices.specs.Journal.{Place};
ghost use Rattle.region_split.specs.Owners.{all_first};
ghost use Rattle.run_plan.specs.Small.{Doing, core_of};
ghost use Rattle.task_ast.specs.WellFormed.{IsWellFormed};
ghost use Rattle.task_attempts.specs.Boots.{task_of};
ghost use Rattle.word_machine.specs.State.{Program};

use act_refines::{
    a_copy_chooses_as_planned, a_copy_goes_by_its_class_as_planned, a_copy_is_sealed_as_planned,
    a_copy_is_valued_as_planned, a_lock_is_set_as_planned, a_region_is_saved_as_planned,
    kept_words_are_put_as_planned, memory_is_related_between_acts, words_are_kept_as_planned,
    words_come_back_as_planned, words_go_across_as_planned, words_go_aside_as_planned,
};
use code_cuts::{
    a_choice_of_a_copy_is_cut_well, a_copy_by_its_class_is_cut_well, a_lock_is_cut_well,
    a_region_is_saved_in_cuts, a_sealed_copy_is_cut_well, a_value_of_a_copy_is_cut_well,
    kept_words_are_cut_well, put_words_are_cut_well, words_that_come_back_are_cut_well,
    words_that_go_across_are_cut_well, words_that_go_aside_are_cut_well,
};

/// Where places are told as they are and the acts of a copy of a checked program's task lie, they lead on: from what is known between
/// the acts of an attempt to the same behind the copy, by its class where it has no record, and by the record where it has, cut
/// anywhere.
pub fn copies_lead_on()
    ensures { (p : Program) (place_of : ℕ → Place) (d : Doing) (number : ℕ) → IsWellFormed (core_of d) → task_of (core_of d) number ≡ Some d.setting.task → d.firsts ≡ all_first (core_of d) d.setting.task → TellsPlaces place_of (core_of d) d.scheme
        → CopiesLead p place_of d number }
{
    a_copy_chooses_as_planned();
    a_copy_goes_by_its_class_as_planned();
    a_copy_is_sealed_as_planned();
    a_copy_is_valued_as_planned();
    a_lock_is_set_as_planned();
    a_region_is_saved_as_planned();
    kept_words_are_put_as_planned();
    memory_is_related_between_acts();
    words_are_kept_as_planned();
    words_come_back_as_planned();
    words_go_across_as_planned();
    words_go_aside_as_planned();
    a_choice_of_a_copy_is_cut_well();
    a_copy_by_its_class_is_cut_well();
    a_lock_is_cut_well();
    a_region_is_saved_in_cuts();
    a_sealed_copy_is_cut_well();
    a_value_of_a_copy_is_cut_well();
    kept_words_are_cut_well();
    put_words_are_cut_well();
    words_that_come_back_are_cut_well();
    words_that_go_across_are_cut_well();
    words_that_go_aside_are_cut_well();
}
