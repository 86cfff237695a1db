//! What holds of the committed store in the runs of every plan, as the contracts of functions that do nothing.
ghost use Rattle.std.specs.Prelude.{ℕ, List};
ghost use Rattle.task_ast.specs.WellFormed.{IsWellFormed};
ghost use Rattle.walk_run.specs.Store.{declared_store};
ghost use Rattle.run_plan.specs.Cells.{State, failed};
ghost use Rattle.run_plan.specs.Runs.{started};
ghost use Rattle.plan_restore.specs.Kept.{planned, IsLeft, BootsKeep};

use devices::World;
use task_ast::Core;
use word_isa::Scheme;

/// Behind each small step of each boot, however many small steps the boots have and whatever each failure leaves of what is
/// volatile, a boot finds the committed store: the declared words at first, and behind a commit the store that the acts had
/// left. Where an attempt has begun its store is the one with which a task begins from the committed store. Under `bank` no act
/// writes a word of the committed bank.
pub fn a_boot_finds_the_committed_store(c: &Core, world: &World, scheme: Scheme)
    requires { IsWellFormed c.now }
    ensures { (numbers times : List ℕ) → BootsKeep (planned c.now world.now scheme) numbers (declared_store c.now) (started (planned c.now world.now scheme) times) }
{}

/// What a plan's run takes a failure to leave is one of the things that a failure may leave, so the law above holds of that
/// run.
pub fn a_run_s_failure_leaves_what_one_may(c: &Core)
    ensures { (s : State) → IsLeft c.now s (failed c.now s) }
{}
