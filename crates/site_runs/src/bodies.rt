//! Blocks and statements, as the contracts of functions that do nothing (docs/CODE.md, "What is proved").
ghost use Rattle.std.specs.Prelude.{◌≡◌, ℕ, Some, []};
ghost use Rattle.site_runs.specs.Calls.{CallsLead};
ghost use Rattle.devices.specs.Journal.{Place};
ghost use Rattle.run_plan.specs.PlanOf.{around, body_acts};
ghost use Rattle.run_plan.specs.Small.{Doing, core_of};
ghost use Rattle.site_runs.specs.Bodies.{ActsLead, BlocksLead};
ghost use Rattle.site_runs.specs.Copies.{CopiesLead};
ghost use Rattle.task_ast.specs.WellFormed.{IsCoreTask, IsWellFormed};
ghost use Rattle.task_attempts.specs.Boots.{task_of};
ghost use Rattle.word_machine.specs.State.{Program};

use crate::looks::looks_lead_on;
use act_refines::{
    a_block_is_entered_as_planned, a_block_is_left_as_planned, a_block_is_sealed_as_planned,
    a_lock_is_set_as_planned, a_record_is_dropped_as_planned, a_region_is_restored_as_planned,
    a_region_is_saved_as_planned, a_statement_is_done_as_planned, a_test_goes_as_planned,
    an_attempt_begins_as_planned, an_attempt_begins_under_bank_as_planned,
    memory_is_related_between_acts,
};
use code_cuts::{
    a_beginning_is_cut_well, a_beginning_of_a_block_is_cut_well, a_commit_is_cut_well,
    a_commit_leaves_a_step, a_dropped_record_is_cut_well, a_lock_is_cut_well,
    a_region_is_restored_in_cuts, a_region_is_saved_in_cuts, a_sealed_block_is_cut_well,
    a_statement_is_cut_well, a_test_is_cut_well, an_end_of_a_block_is_cut_well,
};

/// Where the acts of a block's body lead on inside it, the block's acts lead on inside the blocks around: its beginning and the
/// mode outside are noted within, and at its end the mode is back and its record sealed anew unless it kept.
pub fn blocks_lead_on()
    ensures { (p : Program) (place_of : ℕ → Place) (d : Doing) (number : ℕ) → IsWellFormed (core_of d) → task_of (core_of d) number ≡ Some d.setting.task → BlocksLead p place_of d number }
{
    looks_lead_on();
    a_block_is_entered_as_planned();
    a_beginning_of_a_block_is_cut_well();
    a_block_is_left_as_planned();
    an_end_of_a_block_is_cut_well();
    a_record_is_dropped_as_planned();
    a_dropped_record_is_cut_well();
    a_block_is_sealed_as_planned();
    a_sealed_block_is_cut_well();
}

/// Where calls and copies lead on, the acts of all statements of a task do, one behind another, under tests and inside blocks.
pub fn bodies_lead_on()
    ensures { (p : Program) (place_of : ℕ → Place) (d : Doing) (number : ℕ) → IsWellFormed (core_of d) → task_of (core_of d) number ≡ Some d.setting.task → IsCoreTask (core_of d) d.setting.task
        → CallsLead p place_of d number → CopiesLead p place_of d number → ActsLead p place_of d number [] (body_acts (around d.scheme d.setting.task) d.setting.task.body) }
{
    blocks_lead_on();
    an_attempt_begins_as_planned();
    an_attempt_begins_under_bank_as_planned();
    a_region_is_restored_as_planned();
    a_region_is_saved_as_planned();
    a_lock_is_set_as_planned();
    a_statement_is_done_as_planned();
    a_test_goes_as_planned();
    memory_is_related_between_acts();
    a_beginning_is_cut_well();
    a_region_is_restored_in_cuts();
    a_region_is_saved_in_cuts();
    a_lock_is_cut_well();
    a_statement_is_cut_well();
    a_test_is_cut_well();
    a_commit_is_cut_well();
    a_commit_leaves_a_step();
}
