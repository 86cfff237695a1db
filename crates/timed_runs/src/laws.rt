//! Steps and times of a run over power rows, as the contracts of functions that do nothing (docs/CODE.md, "What is proved").
ghost use Rattle.std.specs.Prelude.{◌≡◌, ◌≤◌, ◌+◌, ℕ, List, length};
ghost use Rattle.std.specs.List.{AllByRecursion};
ghost use Rattle.devices.specs.Journal.{Boot, JournalEvent, Place};
ghost use Rattle.devices.specs.World.{IsWithinLimits};
ghost use Rattle.devices.specs.declared.world.PowerRow.{PowerRow};
ghost use Rattle.devices.specs.declared.world.World.{World};
ghost use Rattle.code_cuts.specs.Boots.{RunsPlan};
ghost use Rattle.code_cuts.specs.Lasting.{Lasts};
ghost use Rattle.power_runs.specs.Due.{FailsWell, HaltsUnmarked};
ghost use Rattle.power_runs.specs.Followed.{AreFollowed};
ghost use Rattle.run_plan.specs.Runs.{Planned};
ghost use Rattle.run_plan.specs.Cells as cells;
ghost use Rattle.task_attempts.specs.Sound.{AllEndWell, IsTimed};
ghost use Rattle.word_machine.specs.Runs.{boots, end_of, last_ending, total_steps};
ghost use Rattle.word_machine.specs.State.{Program, State};
ghost use Rattle.word_machine.specs.Straight.{Spot, live};

/// On every world within the limits, and whatever its code is, the time of each look of a machine is the clock before its step.
#[tactic(auto, using(crate::proofs::Looks::looks_timed))]
pub fn the_time_of_each_look_is_the_clock()
    ensures { (p : Program) (place_of : ℕ → Place) (world : World) (s : State) → IsWithinLimits world → s.clock ≡ 0
        → AllByRecursion (λ (boot : Boot). AllByRecursion (λ (e : ℕ × JournalEvent). IsTimed world e.0 e.1) boot.events) (boots place_of p world.power 0 s) }
{}

/// A machine whose code runs a plan halts only where no task is next; where none is, it halts within 64 steps, unless its power
/// ends before.
pub fn a_machine_halts_where_nothing_is_left()
    ensures { (p : Program) (place_of : ℕ → Place) (x : Planned) → RunsPlan p place_of x → HaltsUnmarked p → FailsWell p x.rules x.plan.scheme
        → (rows : List PowerRow) (before : ℕ) (m : Spot) (s : cells.State) → m.pc ≡ 0 → Lasts p x.rules x.plan.scheme (live m) s → s.task ≤ length x.rules.core.tasks → AreFollowed p place_of x rows m s
        → AllEndWell s.task (before + total_steps p rows (live m)) (boots place_of p rows before (live m)) (end_of (last_ending p rows (live m))) }
{}
