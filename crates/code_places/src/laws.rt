//! Where code lies, as the contracts of functions that do nothing.
ghost use Rattle.std.specs.Prelude.{◌≡◌, ℕ, List, Some};
ghost use Rattle.code_places.specs.Placed.{IsPlaced, program_by};
ghost use Rattle.devices.specs.declared.event.Event.TheVariants as event;
ghost use Rattle.run_plan.specs.PlanOf.{plan_of};
ghost use Rattle.task_ast.specs.WellFormed.{IsWellFormed};
ghost use Rattle.word_machine.specs.Events.{event_next};
ghost use Rattle.word_machine.specs.State as machine;
ghost use Rattle.word_machine.specs.Step.{exec};
ghost use Rattle.word_machine.specs.declared.ending.Ending.TheVariants.{Running, Halted};

use task_ast::Core;
use word_code::every_plan_is_within_its_formulas;
use word_isa::Scheme;

/// In the program of a plan's words and marks, the head, the halt and the stubs lie where jumps to them go, and each act's code
/// lies where its task's code has it, before that of the next act.
pub fn the_code_of_a_plan_lies_in_its_image(c: &Core, scheme: Scheme)
    requires { IsWellFormed c.now }
    ensures { (values : ℕ → List ℕ) → IsPlaced (program_by (plan_of c.now scheme) c.now values) (plan_of c.now scheme) c.now }
{
    every_plan_is_within_its_formulas(c, scheme);
}

/// A machine that goes on with that program, and shows the commit behind which no task is next, halts within 33 steps.
pub fn a_stop_halts(c: &Core, scheme: Scheme)
    requires { IsWellFormed c.now }
    ensures { (values : ℕ → List ℕ) (e : machine.State) → e.ending ≡ Running → event_next (program_by (plan_of c.now scheme) c.now values) e ≡ Some (event.Commit 0)
        → (exec (program_by (plan_of c.now scheme) c.now values) 33 e).ending ≡ Halted }
{
    every_plan_is_within_its_formulas(c, scheme);
}
