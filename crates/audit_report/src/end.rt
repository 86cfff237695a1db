//! Whether a run may end as a journal says.
ghost use Rattle.std.specs.Prelude.{◌≡◌, take};
ghost use Rattle.devices.specs.World as worlds;
ghost use Rattle.devices.specs.World.{IsWithinLimits};
ghost use Rattle.devices.specs.declared.event.RunEnd.TheVariants.{Halted, Power};
ghost use Rattle.devices.specs.Journal.{traps};
ghost use Rattle.audit_check.specs.Ended as spec;
ghost use Rattle.audit_check.specs.Fitting as fitting;
ghost use Rattle.audit_check.specs.Journal.{event_of};
ghost use Rattle.audit_check.specs.Same.{same};
ghost use Rattle.audit_report.specs.Sums.{steps_behind};

use audit_check::{ReportBoot, ReportEvent, TimedEvent};
use devices::{PowerRow, RunEnd, World};

// Whether an event is a trap.
fn traps_here(event: &ReportEvent) -> bool
    ensures { result ≡ fitting.traps_here event.now }
{
    match event {
        ReportEvent::Trap(_) => true,
        _ => false,
    }
}

// Whether no event traps.
fn none_traps(events: &[TimedEvent]) -> bool
    ensures { result ≡ spec.none_traps events.now }
{
    events.iter().all(|e| !traps_here(&e.event))
}

// Whether no event of any boot traps.
fn nothing_traps(boots: &[ReportBoot]) -> bool
    ensures { result ≡ spec.nothing_traps boots.now }
{
    boots.iter().all(|b| none_traps(b.events.as_slice()))
}

// Whether events come before this step.
fn are_before(steps: u32, events: &[TimedEvent]) -> bool
    ensures { result ≡ spec.are_before steps events.now }
{
    events.iter().all(|e| e.step < steps)
}

// The task that is next behind an event.
fn told_next(next: u32, event: &ReportEvent) -> u32
    ensures { result ≡ spec.told_next next event.now }
{
    match event {
        ReportEvent::Commit(task) => *task,
        _ => next,
    }
}

// The task that is next behind events.
fn told_behind(next: u32, events: &[TimedEvent]) -> u32
    ensures { result ≡ spec.told_behind next events.now }
{
    let mut task = next;
    'events: for e in events {
        task = told_next(task, &e.event);
    }
    task
}

// The task that is next behind boots.
fn told_last(next: u32, boots: &[ReportBoot]) -> u32
    ensures { result ≡ spec.told_last next boots.now }
{
    let mut task = next;
    'boots: for b in boots {
        task = told_behind(task, b.events.as_slice());
    }
    task
}

// Whether an event is this trap.
fn is_trap(event: &ReportEvent, code: u32) -> bool
    ensures { result ≡ same (event_of event.now) (traps code) }
{
    match event {
        ReportEvent::Trap(told) => *told == code,
        _ => false,
    }
}

// Whether the last of some events is this trap, at this step.
fn traps_with(steps: u32, code: u32, events: &[TimedEvent]) -> bool
    ensures { result ≡ spec.is_trap_at steps code (spec.last_of events.now) }
{
    let Some(e) = events.get(events.len().saturating_sub(1)) else {
        return false;
    };
    e.step == steps && is_trap(&e.event, code)
}

// Whether the last event of the last boot is this trap, at this step.
fn traps_last(steps: u32, code: u32, boots: &[ReportBoot]) -> bool
    ensures { result ≡ spec.traps_last steps code (spec.last_of boots.now) }
{
    let Some(b) = boots.get(boots.len().saturating_sub(1)) else {
        return false;
    };
    traps_with(steps, code, b.events.as_slice())
}

// Whether the last boot and its events come before this step.
fn is_before(steps: u32, boots: &[ReportBoot]) -> bool
    ensures { result ≡ spec.is_before steps (spec.last_of boots.now) }
{
    let Some(b) = boots.get(boots.len().saturating_sub(1)) else {
        return false;
    };
    b.begun_at < steps && are_before(steps, b.events.as_slice())
}

// The steps that power rows last, behind so many.
fn steps_of(rows: &[PowerRow]) -> u64
    ensures { result ≡ steps_behind 0 rows.now }
{
    let mut total = 0u64;
    'rows: for row in rows {
        total = total.saturating_add(u64::from(row.on));
    }
    total
}

// The power rows of so many boots, or all where there are fewer.
fn rows_of(rows: &[PowerRow], boots: usize) -> &[PowerRow]
    ensures { result.now ≡ take boots rows.now }
{
    match rows.get(..boots) {
        Some(first) => first,
        None => rows,
    }
}

// The steps that the power of a world lasts.
#[tactic(auto, using(crate::proofs::SumLaws::all_steps))]
fn all_steps(world: &World) -> u64
    requires { IsWithinLimits world.now }
    ensures { result ≡ worlds.steps_of world.now.power }
{
    steps_of(world.power.as_slice())
}

// The steps that the power of so many boots lasts.
#[tactic(auto, using(crate::proofs::SumLaws::first_steps))]
fn first_steps(world: &World, boots: usize) -> u64
    requires { IsWithinLimits world.now }
    ensures { result ≡ worlds.steps_of (take boots world.now.power) }
{
    steps_of(rows_of(world.power.as_slice(), boots))
}

// Whether a run may end with its power.
fn ends_by_power(world: &World, boots: &[ReportBoot], steps: u32) -> bool
    requires { IsWithinLimits world.now }
    ensures { result ≡ spec.end_fits world.now.power boots.now steps Power }
{
    if boots.len() != world.power.len() {
        return false;
    }
    if u64::from(steps) != all_steps(world) {
        return false;
    }
    nothing_traps(boots)
}

// Whether a run may halt.
fn halts(world: &World, boots: &[ReportBoot], steps: u32) -> bool
    requires { IsWithinLimits world.now }
    ensures { result ≡ spec.end_fits world.now.power boots.now steps Halted }
{
    if told_last(1, boots) != 0 {
        return false;
    }
    if !is_before(steps, boots) {
        return false;
    }
    u64::from(steps) <= first_steps(world, boots.len())
}

/// Whether a run of these boots may end so in a world, with so many steps done.
pub fn end_fits(world: &World, boots: &[ReportBoot], steps: u32, ending: RunEnd) -> bool
    requires { IsWithinLimits world.now }
    ensures { result ≡ spec.end_fits world.now.power boots.now steps ending }
{
    match ending {
        RunEnd::Power => ends_by_power(world, boots, steps),
        RunEnd::Trapped(code) => traps_last(steps, code, boots),
        RunEnd::Halted => halts(world, boots, steps),
    }
}
