//! Readings past their end, peripherals without readings, and a clock that stops at its last tick.
ghost use Rattle.std.specs.Prelude.{IfOk};
ghost use Rattle.devices.specs.World.{AreDistinct};

use devices::{Clock, Feed, Outside, Readings};
use ease_base::{List, NoMemory, Words};
use std::alloc::Global;
use std::test::Fail;

fn feeds(alloc: Global) -> Result<List<Feed>, NoMemory>
    ensures { IfOk result AreDistinct }
{
    let mut feeds = List::new(alloc);
    feeds.push(Feed {
        number: 255,
        values: Words::from_slice(alloc, &[20, 21])?,
    })?;
    feeds.push(Feed {
        number: 0,
        values: Words::new(alloc),
    })?;
    Ok(feeds)
}

#[test]
fn the_last_reading_repeats_and_a_peripheral_without_readings_gives_0(
    rt: HostRuntime,
) -> Result<(), Fail> {
    let feeds = feeds(rt.alloc())?;
    let mut readings = Readings::make(rt.alloc(), &feeds)?;
    let table = [
        (255, 20),
        (0, 0),
        (7, 0),
        (255, 21),
        (255, 21),
        (0, 0),
        (255, 21),
    ];
    for (peripheral, word) in table {
        assert_eq!(rt; readings.issue(peripheral), word, "of {peripheral}");
    }
    Ok(())
}

#[test]
fn a_clock_counts_steps_and_ticks_without_power(rt: HostRuntime) -> Result<(), Fail> {
    let feeds = feeds(rt.alloc())?;
    let mut outside = Outside {
        readings: Readings::make(rt.alloc(), &feeds)?,
        clock: Clock::new(),
    };
    assert_eq!(rt; outside.clock.now(), 0);
    outside.clock.tick();
    outside.clock.off(0);
    assert_eq!(rt; outside.clock.now(), 1);
    outside.clock.off(4294967293);
    outside.clock.tick();
    assert_eq!(rt; outside.clock.now(), 4294967295);
    outside.clock.off(0);
    assert_eq!(rt; outside.clock.now(), 4294967295);
    Ok(())
}
