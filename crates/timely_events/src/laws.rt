//! Each event of a journal comes within its steps, as the contract of a function that does nothing (docs/ATTEMPTS.md, "What a
//! right journal is").
ghost use Rattle.std.specs.Prelude.{◌≡◌, ℕ, List};
ghost use Rattle.devices.specs.Journal.{Place};
ghost use Rattle.task_ast.specs.WellFormed.{IsWellFormed};
ghost use Rattle.task_attempts.specs.Boots.{rules_of};
ghost use Rattle.task_attempts.specs.Journals.{looks_of};
ghost use Rattle.task_attempts.specs.Sound.{IsInTime};
ghost use Rattle.word_machine.specs.Runs.{journal};
ghost use Rattle.word_machine.specs.State.{Program};
ghost use Rattle.word_machine.specs.Straight.{Spot, live};
ghost use Rattle.run_plan.specs.Runs.{started};
ghost use Rattle.plan_restore.specs.Kept.{planned};
ghost use Rattle.power_runs.specs.Due.{HaltsUnmarked};
ghost use Rattle.power_runs.specs.Followed.{AreFollowed};

use devices::World;
use site_events::every_run_of_a_plan_is_sound;
use task_ast::Core;
use word_isa::Scheme;

/// Where a machine follows the plan of a well-formed program over the power rows of a world, with the looks that its journal
/// shows, each event of the journal comes within the steps that the rules allow; and where the rules have one more event for a
/// boot, the boot ends before that event must have come.
pub fn each_event_comes_within_its_steps(c: &Core, world: &World, scheme: Scheme)
    requires { IsWellFormed c.now }
    ensures { (p : Program) (place_of : ℕ → Place) → HaltsUnmarked p → (m : Spot) (looks : List ℕ)
        → AreFollowed p place_of (planned c.now world.now scheme) world.now.power m (started (planned c.now world.now scheme) looks)
        → looks_of (journal place_of p world.now.power (live m)) ≡ looks
        → IsInTime (rules_of c.now world.now) scheme (journal place_of p world.now.power (live m)) }
{
    every_run_of_a_plan_is_sound(c, world, scheme);
}
