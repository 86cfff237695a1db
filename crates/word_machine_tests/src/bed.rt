//! What each test stands on: a machine with this code, and readings for peripheral 0.
ghost use Rattle.std.specs.Prelude.{IfOk};
ghost use Rattle.devices.specs.World.{AreDistinct};

use devices::{Clock, Feed, Outside, Readings};
use ease_base::{List, NoMemory, Words};
use std::alloc::Global;
use word_isa::{Mark, unnamed_image};
use word_machine::{Machine, Stepped};

/// A machine and what is outside of it.
#[derive(Drop)]
pub struct Bed {
    pub machine: Machine,
    pub outside: Outside,
}

// One feed, of peripheral 0.
fn one_feed(alloc: Global, values: &[u32]) -> Result<List<Feed>, NoMemory>
    ensures { IfOk result AreDistinct }
{
    let mut feeds = List::new(alloc);
    feeds.push(Feed {
        number: 0,
        values: Words::from_slice(alloc, values)?,
    })?;
    Ok(feeds)
}

impl Bed {
    /// A machine with this code, these first words of FRAM and these marks, at its first boot; peripheral 0 reads 20 and then
    /// 21. None where the code or the marks can't be an image's.
    pub fn make(
        alloc: Global,
        code: &[u32],
        fram: &[u32],
        marks: List<Mark>,
    ) -> Result<Option<Bed>, NoMemory> {
        let code = Words::from_slice(alloc, code)?;
        let fram = Words::from_slice(alloc, fram)?;
        let Some(image) = unnamed_image(alloc, code, fram, marks) else {
            return Ok(None);
        };
        let feeds = one_feed(alloc, &[20, 21])?;
        let outside = Outside {
            readings: Readings::make(alloc, &feeds)?,
            clock: Clock::new(),
        };
        let machine = Machine::load(alloc, &image)?;
        Ok(Some(Bed { machine, outside }))
    }

    /// A step; None where the clock stands at its end.
    pub fn step(&mut self) -> Option<Stepped> {
        if self.outside.clock.now() == u32::MAX {
            return None;
        }
        Some(self.machine.step(&mut self.outside))
    }

    /// What the last of so many steps answers.
    pub fn steps(&mut self, n: u32) -> Option<Stepped> {
        let mut last = None;
        for _ in 0..n {
            last = self.step();
        }
        last
    }
}
