//! What the plan of every program meets, as the contracts of functions that do nothing.
ghost use Rattle.std.specs.Prelude.{◌≡◌, true, [], ◌∷◌};
ghost use Rattle.task_ast.specs.WellFormed.{IsWellFormed};
ghost use Rattle.run_plan.specs.declared.act.Act.TheVariants as act;
ghost use Rattle.run_plan.specs.declared.act.Leg.TheVariants.{Across};
ghost use Rattle.run_plan.specs.Kinds.{IsOfProgram};
ghost use Rattle.run_plan.specs.Order.{AllOrdered, IsInOrder, Nothing};
ghost use Rattle.run_plan.specs.PlanOf.{plan_of};
ghost use Rattle.run_plan.specs.Sizes.{AreWithin};
ghost use Rattle.run_plan.specs.Sound.{tasks_save};

use task_ast::Core;
use word_isa::Scheme;

/// Each region, site and task in an act, reached or not, is of the act's task and of what the act is for; statements and
/// conditions are well formed, and a statement that is one act has no sites.
pub fn every_act_is_of_its_task(c: &Core, scheme: Scheme)
    requires { IsWellFormed c.now }
    ensures { IsOfProgram c.now (plan_of c.now scheme) }
{}

/// Nothing stands between an issue and its seal. Behind a transfer of a copy its seal comes behind nothing but the keeping of
/// its words, or none comes any more before the task ends: in no list that may still be done.
pub fn acts_stand_in_order(c: &Core, scheme: Scheme)
    requires { IsWellFormed c.now }
    ensures { IsInOrder (plan_of c.now scheme) }
{}

/// Within the limits of programs the formulas for words of code, marks and FRAM places are within the limits of images. The
/// crate of the code of acts has the law that a plan's acts need no more than its program's formulas say.
pub fn sizes_are_within_their_limits(c: &Core, scheme: Scheme)
    requires { IsWellFormed c.now }
    ensures { AreWithin scheme c.now }
{}

/// Under `undo` each region of a task is saved once, with its lock right behind, in its place: region 0 before all
/// statements, and the region of a copy behind the copy's valuing and before its other acts. Under `bank` nothing is saved.
#[tactic(auto, using(crate::proofs::BankLaws::plan_saves))]
pub fn saving_stands_in_its_place(c: &Core, scheme: Scheme)
    requires { IsWellFormed c.now }
    ensures { tasks_save scheme c.now.tasks (plan_of c.now scheme).tasks ≡ true }
{}

/// What the order forbids, of one list: an act between a copy's transfer and its seal.
#[tactic(auto, using(crate::proofs::OrderLaws::late_seal))]
pub fn a_seal_behind_another_act_is_out_of_order()
    ensures { AllOrdered Nothing (act.Transfer 1 Across ∷ act.Drop 2 ∷ act.Seal 1 ∷ []) → ⊥ }
{}

/// And of two: a seal behind the choice whose list has the transfer.
#[tactic(auto, using(crate::proofs::OrderLaws::seal_outside))]
pub fn a_seal_behind_the_choice_of_its_transfer_is_out_of_order()
    ensures { AllOrdered Nothing (act.Choose 1 (act.Transfer 1 Across ∷ []) [] ∷ act.Seal 1 ∷ []) → ⊥ }
{}
