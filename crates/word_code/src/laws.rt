//! What the code of every plan needs at most, as the contract of a function that does nothing.
ghost use Rattle.run_plan.specs.PlanOf.{plan_of};
ghost use Rattle.run_plan.specs.Sizes.{AreWithin};
ghost use Rattle.task_ast.specs.WellFormed.{IsWellFormed};
ghost use Rattle.word_code.specs.Within.{IsWithin};

use plan_laws::{every_act_is_of_its_task, sizes_are_within_their_limits};
use task_ast::Core;
use word_isa::Scheme;

/// The acts of the plan of a well-formed program need no more lines and marks than the formulas of the program say, and these
/// are within the limits of images (docs/PLAN.md, "Sizes"). The kept words, which lie last in FRAM, end within 16 bits.
pub fn every_plan_is_within_its_formulas(c: &Core, scheme: Scheme)
    requires { IsWellFormed c.now }
    ensures within { IsWithin (plan_of c.now scheme) c.now }
    ensures limits { AreWithin scheme c.now }
{
    every_act_is_of_its_task(c, scheme);
    sizes_are_within_their_limits(c, scheme);
}
