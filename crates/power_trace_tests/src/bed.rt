//! What each test stands on: worlds of at most two power rows, and what a run of an image writes.
ghost use Rattle.std.specs.Prelude.{◌≡◌, ◌∷◌, [], IfOk};
ghost use Rattle.devices.specs.World.{IsWithinLimits};
ghost use Rattle.power_trace_tests.specs.Rows.{AreShort, IsShort};

use devices::{Feed, PowerRow, RunEnd, World};
use ease_base::{List, MemSink, NoMemory, Words};
use power_trace::{RunError, run};
use std::alloc::Global;
use word_isa::Image;

/// A power row of few steps and ticks, with the fill word 0.
#[derive(Clone, Copy)]
pub struct ShortRow {
    pub on: u16,
    pub off: u16,
}

// The row as a world has it.
fn power_row(row: ShortRow) -> PowerRow
    ensures { IsShort result }
{
    PowerRow {
        on: u32::from(row.on),
        off: u32::from(row.off),
        fill: 0,
    }
}

// The first two of the rows, or as many as there are.
fn power(alloc: Global, rows: &[ShortRow]) -> Result<List<PowerRow>, NoMemory>
    ensures { IfOk result AreShort }
{
    match rows {
        [] => no_rows(alloc),
        [one] => one_row(alloc, *one),
        [one, two, ..] => two_rows(alloc, *one, *two),
    }
}

fn no_rows(alloc: Global) -> Result<List<PowerRow>, NoMemory>
    ensures { IfOk result AreShort }
{
    Ok(List::new(alloc))
}

fn one_row(alloc: Global, one: ShortRow) -> Result<List<PowerRow>, NoMemory>
    ensures { IfOk result AreShort }
{
    let rows = List::from_slice(alloc, &[power_row(one)])?;
    Ok(rows)
}

fn two_rows(alloc: Global, one: ShortRow, two: ShortRow) -> Result<List<PowerRow>, NoMemory>
    ensures { IfOk result AreShort }
{
    let rows = List::from_slice(alloc, &[power_row(one), power_row(two)])?;
    Ok(rows)
}

// One feed, of peripheral 0.
fn one_feed(alloc: Global, values: &[u32]) -> Result<List<Feed>, NoMemory>
    ensures { IfOk result (λ feeds. feeds ≡ record { number = 0; values = values.now } ∷ []) }
{
    let values = Words::from_slice(alloc, values)?;
    let mut feeds = List::new(alloc);
    feeds.push(Feed { number: 0, values })?;
    Ok(feeds)
}

/// A world of the first two of these power rows, where peripheral 0 has these readings.
pub fn world(alloc: Global, rows: &[ShortRow], values: &[u32]) -> Result<World, NoMemory>
    ensures { IfOk result IsWithinLimits }
{
    Ok(World {
        power: power(alloc, rows)?,
        feeds: one_feed(alloc, values)?,
        retained: Words::new(alloc),
    })
}

/// A sink of so much room, in which this write fails, if one is named, and what the run of the image gave.
#[derive(Drop)]
pub struct Written {
    pub sink: MemSink,
    pub end: Result<RunEnd, RunError>,
}

/// Runs an image on a world of these rows and readings.
pub fn run_image(
    alloc: Global,
    image: &Image,
    rows: &[ShortRow],
    values: &[u32],
    brief: bool,
    fails: Option<u32>,
) -> Result<Written, NoMemory> {
    let world = world(alloc, rows, values)?;
    let mut numbers = Words::new(alloc);
    if let Some(number) = fails {
        numbers.push(number)?;
    }
    let mut sink = MemSink::make(alloc, 400, numbers)?;
    let end = run(alloc, image, &world, brief, &mut sink);
    Ok(Written { sink, end })
}
