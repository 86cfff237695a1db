//! Whether the steps and the looks of a journal fit a world's power, line by line.
ghost use Rattle.std.specs.Prelude.{◌≡◌, ◌≤◌};
ghost use Rattle.devices.specs.World.{IsWithinLimits};
ghost use Rattle.audit_check.specs.Fits.{BootsFitWorld};
ghost use Rattle.audit_check.specs.Fitting as spec;
ghost use Rattle.audit_check.specs.Journal.{boots_of};
ghost use Rattle.audit_check.specs.Lines.{Reaches, lines_of};

use crate::journal::{ReportBoot, ReportEvent, TimedEvent};
use devices::{PowerRow, World};
use std::marker::Model;

// What the next event of a boot is tested against, and the lines that fit so far.
#[derive(Drop)]
struct Pace {
    done: u64,
    last: u64,
    off: u64,
    over: bool,
    lines: u64,
}

impl Model for Pace {
    ghost use Rattle.audit_check.specs.Fitting.{Pace};

    ghost Value = { Pace };

    ghost view = { λ p. record { done = p.done; last = p.last; off = p.off; over = p.over; lines = p.lines } };
}

// Whether an event is a trap.
fn traps_here(event: &ReportEvent) -> bool
    ensures { result ≡ spec.traps_here event.now }
{
    match event {
        ReportEvent::Trap(_) => true,
        _ => false,
    }
}

// Whether a look at a step shows the clock before it; no other event shows a time.
fn shows_clock(step: u32, off: u64, event: &ReportEvent) -> bool
    ensures { result ≡ spec.shows_clock step off event.now }
{
    match event {
        ReportEvent::Look(_, time) => {
            u64::from(*time) == u64::from(step.saturating_sub(1)).saturating_add(off)
        }
        _ => true,
    }
}

impl Pace {
    // Whether an event fits.
    fn fits(&self, e: &TimedEvent) -> bool
        ensures { result ≡ spec.fits_here self.now e.now }
    {
        if self.over || u64::from(e.step) <= self.done || u64::from(e.step) > self.last {
            return false;
        }
        shows_clock(e.step, self.off, &e.event)
    }

    // Goes behind an event.
    fn step(&mut self, e: &TimedEvent)
        ensures { self.new ≡ spec.stepped self.old e.now }
    {
        if self.fits(e) {
            self.done = u64::from(e.step);
            self.over = traps_here(&e.event);
            self.lines = self.lines.saturating_add(1);
        } else {
            self.over = true;
        }
    }

    // Goes behind events.
    fn pass(&mut self, events: &[TimedEvent])
        ensures { self.new ≡ spec.passed self.old events.now }
    {
        'events: for e in events {
            self.step(e);
        }
    }
}

// What the next boot is tested against, and the lines that fit so far.
#[derive(Drop)]
struct Power<'a> {
    rows: &'a [PowerRow],
    done: u64,
    off: u64,
    over: bool,
    lines: u64,
}

impl<'a> Model for Power<'a> {
    ghost use Rattle.audit_check.specs.Fitting.{Power};

    ghost Value = { Power };

    ghost view = { λ p. record { rows = p.rows.now; done = p.done; off = p.off; over = p.over; lines = p.lines } };
}

impl<'a> Power<'a> {
    // The lines of a boot in a row.
    fn pass_row(&self, row: &PowerRow, boot: &ReportBoot) -> Pace
        ensures { result ≡ spec.passed (spec.pace_in self.now row.now) boot.now.events }
    {
        let mut pace = Pace {
            done: self.done,
            last: self.done.saturating_add(u64::from(row.on)),
            off: self.off,
            over: false,
            lines: self.lines.saturating_add(1),
        };
        pace.pass(boot.events.as_slice());
        pace
    }

    // Goes behind a boot.
    fn boot(&mut self, boot: &ReportBoot)
        ensures { self.new ≡ spec.booted_in self.old self.old.rows boot.now }
    {
        let Some((row, rows)) = self.rows.split_first() else {
            self.over = true;
            return;
        };
        if self.over || u64::from(boot.begun_at) != self.done {
            self.over = true;
            return;
        }
        let pace = self.pass_row(row, boot);
        self.rows = rows;
        self.done = pace.last;
        self.off = self.off.saturating_add(u64::from(row.off));
        self.over = pace.over;
        self.lines = pace.lines;
    }

    // Goes behind boots.
    fn pass(&mut self, boots: &[ReportBoot])
        ensures { self.new ≡ spec.all_booted self.old boots.now }
    {
        'boots: for boot in boots {
            self.boot(boot);
        }
    }
}

/// How many first lines of a journal fit a world: they are those of boots whose steps lie within its power rows, and whose
/// looks show its clock. No other number is the number.
pub fn fitting_lines(world: &World, boots: &[ReportBoot]) -> u64
    requires limits { IsWithinLimits world.now }
    requires few { lines_of (boots_of boots.now) ≤ 4294967295 }
    ensures { Reaches (BootsFitWorld world.now) (boots_of boots.now) result }
{
    let mut power = Power {
        rows: world.power.as_slice(),
        done: 0,
        off: 0,
        over: false,
        lines: 0,
    };
    power.pass(boots);
    power.lines
}
