//! Whole programs, as the contracts of functions that do nothing (docs/CODE.md, "What is proved").
ghost use Rattle.std.specs.Prelude.{ℕ, List};
ghost use Rattle.code_cuts.specs.Boots.{RunsPlan};
ghost use Rattle.code_places.specs.Placed.{IsPlaced, program_by};
ghost use Rattle.code_runs.specs.Bare.{planned};
ghost use Rattle.code_runs.specs.Booting.{StopsSoon};
ghost use Rattle.site_runs.specs.Told.{TellsPlaces};
ghost use Rattle.devices.specs.Journal.{Place};
ghost use Rattle.devices.specs.World.{IsWithinLimits};
ghost use Rattle.devices.specs.declared.world.World.{World};
ghost use Rattle.run_plan.specs.PlanOf.{plan_of};
ghost use Rattle.task_ast.specs.WellFormed.{IsWellFormed};
ghost use Rattle.task_ast.specs.declared.core_form.Core.{Core};
ghost use Rattle.word_isa.specs.declared.parts.Scheme.{Scheme};
ghost use Rattle.word_machine.specs.State.{Program};

use crate::bodies::blocks_lead_on;
use crate::calls::calls_lead_on;
use crate::copies::copies_lead_on;
use act_refines::{
    a_lock_is_set_as_planned, a_region_is_restored_as_planned, a_region_is_saved_as_planned,
    a_statement_is_done_as_planned, a_test_goes_as_planned, an_attempt_begins_as_planned,
    an_attempt_begins_under_bank_as_planned, memory_is_related_between_acts,
};
use code_cuts::{
    a_beginning_is_cut_well, a_commit_is_cut_well, a_commit_leaves_a_step, a_lock_is_cut_well,
    a_region_is_restored_in_cuts, a_region_is_saved_in_cuts, a_statement_is_cut_well,
    a_test_is_cut_well,
};
use code_places::{a_stop_halts, the_code_of_a_plan_lies_in_its_image};
use code_runs::boots_run_as_planned;

/// A machine's program in which the code of a plan lies runs the plan, cut anywhere, in every world within the limits and under
/// both schemes, where words are told by their places.
pub fn a_program_runs_its_plan()
    ensures { (c : Core) (world : World) (scheme : Scheme) (p : Program) (place_of : ℕ → Place) → IsWellFormed c → IsWithinLimits world → IsPlaced p (plan_of c scheme) c → StopsSoon p → TellsPlaces place_of c scheme
        → RunsPlan p place_of (planned c world scheme) }
{
    boots_run_as_planned();
    blocks_lead_on();
    calls_lead_on();
    copies_lead_on();
    an_attempt_begins_as_planned();
    an_attempt_begins_under_bank_as_planned();
    a_region_is_restored_as_planned();
    a_region_is_saved_as_planned();
    a_lock_is_set_as_planned();
    a_statement_is_done_as_planned();
    a_test_goes_as_planned();
    memory_is_related_between_acts();
    a_beginning_is_cut_well();
    a_region_is_restored_in_cuts();
    a_region_is_saved_in_cuts();
    a_lock_is_cut_well();
    a_statement_is_cut_well();
    a_test_is_cut_well();
    a_commit_is_cut_well();
    a_commit_leaves_a_step();
}

/// So does the program of the words and marks of each checked program, whatever its peripherals read.
pub fn an_image_runs_its_plan(c: &task_ast::Core, scheme: word_isa::Scheme)
    requires { IsWellFormed c.now }
    ensures { (world : World) (values : ℕ → List ℕ) (place_of : ℕ → Place) → IsWithinLimits world → TellsPlaces place_of c.now scheme
        → RunsPlan (program_by (plan_of c.now scheme) c.now values) place_of (planned c.now world scheme) }
{
    a_program_runs_its_plan();
    the_code_of_a_plan_lies_in_its_image(c, scheme);
    a_stop_halts(c, scheme);
}
