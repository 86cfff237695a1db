//! A runner, which has all memory of a run before the run begins.
ghost use Rattle.std.specs.Prelude.{◌≡◌, ◌≤◌, IfOk, OnOk, OnErr};
ghost use Rattle.devices.specs.Reading.{values_in};
ghost use Rattle.devices.specs.Readings.{values_of};
ghost use Rattle.devices.specs.World.{AreDistinct};
ghost use Rattle.ease_base.specs.Count.{HasRisen};
ghost use Rattle.ease_base.specs.Sink.{extended, TookFront};
ghost use Rattle.power_trace.specs.Run.{AreWithinLimits, journal_from, report_from};

use crate::live::Live;
use crate::report_line::end_line;
use crate::rows::run_rows;
use devices::{Clock, Feed, Outside, PowerRow, Readings, RunEnd};
use ease_base::{Failed, List, NoMemory, Sink, send_all};
use std::alloc::Global;
use std::marker::Model;
use word_isa::Image;
use word_machine::Machine;

/// An image and its peripherals' readings, ready to run from the first boot on.
#[derive(Drop)]
pub struct Runner<'a> {
    image: &'a Image,
    machine: Machine,
    outside: Outside,
}

impl<'a> Model for Runner<'a> {
    ghost use Rattle.power_trace.specs.Live.{IsPrepared};
    ghost use Rattle.power_trace.specs.Run.{Prepared};

    ghost Value = { Prepared };

    ghost view = { λ r. record { image = r.image.now; readings = r.outside.readings } };

    ghost invariant = { λ r. IsPrepared r.image.now r.machine r.outside };
}

impl<'a> Runner<'a> {
    /// Takes all the memory of a run. A peripheral without a feed has no readings. docs/MACHINE.md, "The report".
    pub fn make(alloc: Global, image: &'a Image, feeds: &List<Feed>) -> Result<Runner<'a>, NoMemory>
        requires { AreDistinct feeds.now }
        ensures image { IfOk result (λ r. r.image ≡ image.now) }
        ensures readings { IfOk result (λ r. values_of r.readings ≡ values_in feeds.now) }
    {
        let machine = Machine::load(alloc, image)?;
        let outside = Outside {
            readings: Readings::make(alloc, feeds)?,
            clock: Clock::new(),
        };
        Ok(Runner {
            image,
            machine,
            outside,
        })
    }

    /// Writes the report of the run on these power rows, line by line, and gives the run's end. It takes no memory. After
    /// `Failed` a front of the report was taken.
    pub fn run<K: Sink>(
        self,
        power: &List<PowerRow>,
        brief: bool,
        out: &mut K,
    ) -> Result<RunEnd, Failed>
        requires { AreWithinLimits power.now }
        ensures whole { OnOk result (K.taken out.new ≡ extended (K.taken out.old) (report_from self.entry power.now brief)) }
        ensures end { IfOk result (λ end. end ≡ (journal_from self.entry power.now).ending) }
        ensures front { TookFront (K.taken out.old) (K.taken out.new) (report_from self.entry power.now brief) }
        ensures failed { OnErr result (HasRisen (K.faults out.old) (K.faults out.new)) }
        ensures faults { K.faults out.old ≤ K.faults out.new }
        ensures steady { OnOk result (K.faults out.new ≡ K.faults out.old) }
    {
        let mut live = Live {
            machine: self.machine,
            outside: self.outside,
            steps: 0,
        };
        let end = run_rows(&mut live, self.image, brief, power.as_slice(), out)?;
        send_all(out, end_line(brief, live.steps, end).as_slice())?;
        Ok(end)
    }
}
