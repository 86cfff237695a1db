//! What holds of every run over power failures, as the contracts of functions that do nothing.
ghost use Rattle.std.specs.Prelude.{◌≡◌, ◌+◌, ◌++◌, ℕ, List};
ghost use Rattle.std.specs.List.{AllByRecursion};
ghost use Rattle.task_ast.specs.WellFormed.{IsWellFormed};
ghost use Rattle.task_attempts.specs.Boots.{rules_of, boots, expect};
ghost use Rattle.task_attempts.specs.Sound.{AreWalked, RecordsAgree};
ghost use Rattle.task_attempts.specs.Journals.{retained};
ghost use Rattle.walk_run.specs.declared.trap.Trap.{Trap};
ghost use Rattle.walk_run.specs.declared.walked.WalkEnd.TheVariants.{Trapped};
ghost use Rattle.walk_run.specs.Store.{declared_store};
ghost use Rattle.walk_run.specs.Walk.{ends, walk_of};
ghost use Rattle.attempt_laws.specs.Runs.{LastTraps, all_commits, all_courses, all_states, last_trapped};

use devices::World;
use task_ast::Core;

/// Every record that an attempt follows was made with what its site is valued at now: the same arguments, or the same ends
/// and length, and the same words at the destination. So it is in each boot that the rules expect, however the power
/// fails and whatever the looks show.
#[tactic(auto, using(crate::proofs::BootRecords::records_agree))]
pub fn a_record_that_is_followed_agrees(c: &Core, world: &World)
    requires { IsWellFormed c.now }
    ensures { (cuts times : List ℕ) → AllByRecursion RecordsAgree (boots (rules_of c.now world.now) cuts times) }
{}

/// What is committed is what the unbroken run does that is fed the retained readings: behind the i-th commit of all boots
/// the next task and the nonvolatile words are those behind its i-th task. So it is however the power fails and whatever
/// the looks show.
#[tactic(auto, using(crate::proofs::StateLaws::commits_are_walked))]
pub fn what_is_committed_is_what_an_unbroken_run_does(c: &Core, world: &World)
    requires { IsWellFormed c.now }
    ensures { (cuts times : List ℕ) → AreWalked c.now (expect (rules_of c.now world.now) cuts times) (all_states c.now (boots (rules_of c.now world.now) cuts times)) }
{}

/// Where the last boot ends by a trap, the unbroken run of one task more that besides is fed the readings of the attempt
/// that traps shows the states of all commits, and ends by that trap.
#[tactic(auto, using(crate::proofs::StateLaws::trap_is_walked))]
pub fn a_trap_is_that_of_the_unbroken_run(c: &Core, world: &World)
    requires { IsWellFormed c.now }
    ensures { (cuts times : List ℕ) (why : Trap) → LastTraps why (boots (rules_of c.now world.now) cuts times)
        → walk_of c.now (retained c.now (expect (rules_of c.now world.now) cuts times) ++ last_trapped c.now (boots (rules_of c.now world.now) cuts times)) (all_commits (boots (rules_of c.now world.now) cuts times) + 1)
        ≡ all_courses c.now (λ next base. ends (Trapped why)) 1 (declared_store c.now) (boots (rules_of c.now world.now) cuts times) }
{}
