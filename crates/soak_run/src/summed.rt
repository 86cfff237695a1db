//! The run of an image on a world, and its summary.
ghost use Rattle.std.specs.Prelude.{◌≡◌, ◌+◌, ◌≤◌, IfOk};
ghost use Rattle.devices.specs.Readings.{values_of};
ghost use Rattle.devices.specs.Reading.{values_in};
ghost use Rattle.devices.specs.World.{AreDistinct, IsWithinLimits};
ghost use Rattle.power_trace.specs.Live.{IsPrepared};
ghost use Rattle.power_trace.specs.Run.{journal_on};
ghost use Rattle.soak_run.specs.Summary.{summary_on};

use crate::counted::count_rows;
use crate::counts::Counts;
use crate::named::word_named;
use crate::summary::summary_text;
use devices::{Clock, Feed, Outside, Readings, RunEnd, World};
use ease_base::{List, NoMemory, Text};
use power_trace::Live;
use std::alloc::Global;
use word_isa::Image;
use word_machine::Machine;

/// The text of a summary, and how the run ended.
#[derive(Drop)]
pub struct Summary {
    pub text: Text,
    pub end: RunEnd,
}

/// Runs an image on a world to its end and sums up its journal: seven lines, which docs/COMMANDS.md shows under "Soak". `n` is
/// the word of the nonvolatile variable of this name at the end of the run, 0 where the image has none.
pub fn sum_up(alloc: Global, image: &Image, world: &World) -> Result<Summary, NoMemory>
    requires { IsWithinLimits world.now }
    ensures text { IfOk result (λ s. s.text ≡ summary_on image.now world.now) }
    ensures end { IfOk result (λ s. s.end ≡ (journal_on image.now world.now).ending) }
{
    let mut live = prepare(alloc, image, &world.feeds)?;
    let mut counts = Counts::nothing();
    let end = count_rows(&mut live, &mut counts, world.power.as_slice());
    let n = word_named(&live.machine, image, b"n");
    let text = summary_text(alloc, counts, n, end)?;
    Ok(Summary { text, end })
}

// The machine of an image before its first step, and these peripherals beside it.
fn prepare(alloc: Global, image: &Image, feeds: &List<Feed>) -> Result<Live, NoMemory>
    requires { AreDistinct feeds.now }
    ensures prepared { IfOk result (λ l. IsPrepared image.now l.machine l.outside) }
    ensures readings { IfOk result (λ l. values_of l.outside.readings ≡ values_in feeds.now) }
    ensures clock { IfOk result (λ l. l.outside.clock ≡ 0) }
    ensures steps { IfOk result (λ l. l.steps ≡ 0) }
{
    let machine = Machine::load(alloc, image)?;
    let outside = Outside {
        readings: Readings::make(alloc, feeds)?,
        clock: Clock::new(),
    };
    Ok(Live {
        machine,
        outside,
        steps: 0,
    })
}
