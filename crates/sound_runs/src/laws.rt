//! Journals of compiled code, as the contracts of functions that do nothing (docs/CODE.md, "What is proved").
ghost use Rattle.std.specs.Prelude.{◌≡◌, ◌≤◌, ◌<◌, ◌+◌, ◌^◌, ℕ, List};
ghost use Rattle.code_cuts.specs.Boots.{RunsPlan};
ghost use Rattle.code_cuts.specs.Lasting.{Lasts};
ghost use Rattle.devices.specs.Journal.{Place};
ghost use Rattle.devices.specs.World.{steps_of, ticks_of};
ghost use Rattle.devices.specs.declared.world.PowerRow.{PowerRow};
ghost use Rattle.plan_restore.specs.Kept.{planned};
ghost use Rattle.power_runs.specs.Due.{HaltsUnmarked};
ghost use Rattle.power_runs.specs.Followed.{AreFollowed};
ghost use Rattle.run_plan.specs.Cells.{State};
ghost use Rattle.run_plan.specs.Runs.{Planned, started};
ghost use Rattle.sound_runs.specs.Keeps.{IsSoundOn, ShowsRun};
ghost use Rattle.task_ast.specs.WellFormed.{IsWellFormed};
ghost use Rattle.task_attempts.specs.Boots.{rules_of};
ghost use Rattle.task_attempts.specs.Journals.{looks_of};
ghost use Rattle.word_machine.specs.Runs.{journal};
ghost use Rattle.word_machine.specs.State.{Program};
ghost use Rattle.word_machine.specs.Straight.{Spot, live};

use devices::World;
use power_runs::{a_run_over_power_rows_is_followed, the_looks_of_a_journal_are_due};
use site_events::every_run_of_a_plan_is_sound;
use task_ast::Core;
use word_isa::Scheme;

/// A machine that is followed over power rows shows in its journal just what a run of the plan shows: each boot what the plan's
/// boot shows in so many small steps, from where the one before left it.
pub fn a_journal_shows_a_run_of_its_plan()
    ensures { (p : Program) (place_of : ℕ → Place) → HaltsUnmarked p → (x : Planned) (rows : List PowerRow) (m : Spot) (s : State) → AreFollowed p place_of x rows m s → ShowsRun p place_of x rows m s }
{}

/// So where it begins as the plan does, with the looks that it shows, its journal keeps what the rules say of events, of what is
/// committed, of its trap and of the records that it follows; and behind each of its commits FRAM stands for the state of the
/// plan whose next task and committed words are those of the unbroken run.
pub fn a_journal_keeps_what_the_rules_say(c: &Core, world: &World, scheme: Scheme)
    requires { IsWellFormed c.now }
    ensures { (p : Program) (place_of : ℕ → Place) → HaltsUnmarked p → (rows : List PowerRow) (m : Spot)
        → AreFollowed p place_of (planned c.now world.now scheme) rows m (started (planned c.now world.now scheme) (looks_of (journal place_of p rows (live m))))
        → IsSoundOn p place_of (planned c.now world.now scheme) rows m }
{
    every_run_of_a_plan_is_sound(c, world, scheme);
}

/// Code that runs the plan of a program does so over all of a world's power rows, from memory that stands for the plan's first
/// state, whatever looks that state is given.
pub fn code_that_runs_a_plan_keeps_what_the_rules_say(c: &Core, world: &World, scheme: Scheme)
    requires { IsWellFormed c.now }
    ensures { (p : Program) (place_of : ℕ → Place) → RunsPlan p place_of (planned c.now world.now scheme) → HaltsUnmarked p → steps_of world.now.power ≤ 4194304
        → (m : Spot) → m.pc ≡ 0 → m.clock + ticks_of world.now.power < 2 ^ 32 → ((looks : List ℕ) → Lasts p (rules_of c.now world.now) scheme (live m) (started (planned c.now world.now scheme) looks))
        → IsSoundOn p place_of (planned c.now world.now scheme) world.now.power m }
{
    a_run_over_power_rows_is_followed();
    the_looks_of_a_journal_are_due();
    a_journal_keeps_what_the_rules_say(c, world, scheme);
}
