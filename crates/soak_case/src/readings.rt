//! The world of a soak.
ghost use Rattle.std.specs.Prelude.{◌≡◌, ◌++◌, ◌+◌, ◌≤◌, IfOk, OnOk};
ghost use Rattle.devices.specs.World.{IsWithinLimits};
ghost use Rattle.soak_case.specs.Draws.{state_behind};
ghost use Rattle.soak_case.specs.Readings as spec;

use crate::drawn::Drawn;
use crate::draws::Draws;
use devices::{Feed, PowerRow, World};
use ease_base::{List, NoMemory, Words};
use std::alloc::Global;

/// The world of the soak of a number: its draws begin where those of its source end.
pub fn soak_world(alloc: Global, number: u32) -> Result<World, NoMemory>
    ensures world { IfOk result (λ world. world ≡ spec.world_of number) }
    ensures within { IfOk result IsWithinLimits }
{
    let world = draw_world(alloc, number)?;
    Ok(world)
}

fn draw_world(alloc: Global, number: u32) -> Result<World, NoMemory>
    ensures { IfOk result (λ world. world ≡ spec.world_of number) }
{
    let mut draws = Draws::new(number);
    pass_source(&mut draws);
    let power = draw_rows(alloc, &mut draws)?;
    let mut feeds = List::new(alloc);
    feeds.push(draw_feed(alloc, 0, 64, &mut draws)?)?;
    feeds.push(draw_feed(alloc, 1, 16, &mut draws)?)?;
    Ok(World {
        power,
        feeds,
        retained: Words::new(alloc),
    })
}

// Draws what the source draws.
fn pass_source(draws: &mut Draws)
    ensures { draws.new ≡ state_behind 512 draws.old }
{
    'numbers: for _done in 0..512_u32 {
        let _ = draws.draw(1);
    }
}

fn draw_row(draws: &mut Draws) -> PowerRow
    ensures row { result ≡ spec.row_drawn draws.old }
    ensures draws { draws.new ≡ state_behind 3 draws.old }
{
    PowerRow {
        on: 8000 + draws.draw(2000),
        off: draws.draw(2000),
        fill: draws.draw(65536),
    }
}

fn draw_rows(alloc: Global, draws: &mut Draws) -> Result<List<PowerRow>, NoMemory>
    ensures rows { IfOk result (λ rows. rows ≡ spec.rows_drawn 400 draws.old) }
    ensures draws { OnOk result (draws.new ≡ state_behind 1200 draws.old) }
{
    let mut rows = List::new(alloc);
    'rows: for _done in 0..400_u32 {
        rows.push(draw_row(draws))?;
    }
    Ok(rows)
}

fn draw_feed(alloc: Global, number: u8, count: u32, draws: &mut Draws) -> Result<Feed, NoMemory>
    ensures feed { IfOk result (λ feed. feed ≡ record { number = number; values = spec.readings_drawn count draws.old }) }
    ensures draws { OnOk result (draws.new ≡ state_behind count draws.old) }
{
    let mut values = Words::new(alloc);
    'readings: for _done in 0..count {
        values.push(draws.draw(1000))?;
    }
    Ok(Feed { number, values })
}
