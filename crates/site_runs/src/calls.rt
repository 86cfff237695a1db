//! Calls lead on, as the contract of a function that does nothing (docs/CODE.md, "What is proved").
ghost use Rattle.std.specs.Prelude.{◌≡◌, ℕ, Some};
ghost use Rattle.site_runs.specs.Calls.{CallsLead};
ghost use Rattle.devices.specs.Journal.{Place};
ghost use Rattle.devices.specs.World.{IsWithinLimits};
ghost use Rattle.run_plan.specs.Small.{Doing, core_of};
ghost use Rattle.task_ast.specs.WellFormed.{IsWellFormed};
ghost use Rattle.task_attempts.specs.Boots.{task_of};
ghost use Rattle.word_machine.specs.State.{Program};

use act_laws::a_look_keeps_the_time;
use act_refines::{
    a_call_chooses_as_planned, a_call_is_issued_as_planned, a_call_is_sealed_as_planned,
    a_call_is_valued_as_planned, a_call_with_a_target_is_valued_as_planned,
    a_kept_word_is_taken_as_planned, a_look_is_as_planned, a_record_is_dropped_as_planned,
    a_word_is_written_as_planned, a_word_without_a_target_is_not_written_as_planned,
    memory_is_related_between_acts,
};
use code_cuts::{
    a_choice_of_a_call_is_cut_well, a_dropped_record_is_cut_well, a_look_is_cut_well,
    a_sealed_call_is_cut_well, a_taken_word_is_cut_well, a_value_of_a_call_is_cut_well,
    a_written_word_is_cut_well, an_issue_is_cut_well,
};

/// In a world within the limits, where the acts of a call of a checked program's task lie, they lead on: from what is known between
/// the acts of an attempt to the same behind the call, whether it keeps or issues, cut anywhere.
pub fn calls_lead_on()
    ensures { (p : Program) (place_of : ℕ → Place) (d : Doing) (number : ℕ) → IsWellFormed (core_of d) → task_of (core_of d) number ≡ Some d.setting.task → IsWithinLimits d.setting.rules.world → CallsLead p place_of d number }
{
    a_look_keeps_the_time();
    a_call_chooses_as_planned();
    a_call_is_issued_as_planned();
    a_call_is_sealed_as_planned();
    a_call_is_valued_as_planned();
    a_call_with_a_target_is_valued_as_planned();
    a_kept_word_is_taken_as_planned();
    a_look_is_as_planned();
    a_record_is_dropped_as_planned();
    a_word_is_written_as_planned();
    a_word_without_a_target_is_not_written_as_planned();
    memory_is_related_between_acts();
    a_choice_of_a_call_is_cut_well();
    a_dropped_record_is_cut_well();
    a_look_is_cut_well();
    a_sealed_call_is_cut_well();
    a_taken_word_is_cut_well();
    a_value_of_a_call_is_cut_well();
    a_written_word_is_cut_well();
    an_issue_is_cut_well();
}
