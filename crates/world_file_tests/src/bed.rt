//! What each test stands on: two peripherals, and the answer of `read_world` as a line.
ghost use Rattle.std.specs.Prelude.{IfOk};
ghost use Rattle.world_file.specs.Peripherals.{AreApart};

use devices::World;
use ease_base::{List, NoMemory, Peripheral, Text};
use std::alloc::{AllocError, Global};
use world_file::{WorldError, read_world};

// `temp`, number 0, and `radio`, number 7.
fn peripherals(alloc: Global) -> Result<List<Peripheral>, NoMemory>
    ensures { IfOk result AreApart }
{
    let mut peripherals = List::new(alloc);
    peripherals.push(Peripheral {
        name: Text::from_slice(alloc, b"temp")?,
        number: 0,
    })?;
    peripherals.push(Peripheral {
        name: Text::from_slice(alloc, b"radio")?,
        number: 7,
    })?;
    Ok(peripherals)
}

// The numbers, each after a space.
fn numbers(alloc: Global, words: &[u32]) -> Result<String, AllocError> {
    let mut text = String::new(alloc);
    for word in words {
        text.push_str(format!(in alloc; " {word}")?.as_str())?;
    }
    Ok(text)
}

// `row ON OFF FILL;` for each power row, `feed NUMBER VALUES;` for each feed, and `retained VALUES`.
fn world_line(alloc: Global, world: &World) -> Result<String, AllocError> {
    let mut text = String::new(alloc);
    for row in world.power.as_slice() {
        text.push_str(format!(in alloc; "row {} {} {};", row.on, row.off, row.fill)?.as_str())?;
    }
    for feed in world.feeds.as_slice() {
        let values = numbers(alloc, feed.values.as_slice())?;
        text.push_str(format!(in alloc; "feed {}{values};", feed.number)?.as_str())?;
    }
    let retained = numbers(alloc, world.retained.as_slice())?;
    text.push_str(format!(in alloc; "retained{retained}")?.as_str())?;
    Ok(text)
}

fn fault_line(alloc: Global, fault: WorldError) -> Result<String, AllocError> {
    match fault {
        WorldError::NotToml => format!(in alloc; "not-toml"),
        WorldError::BadKey => format!(in alloc; "bad-key"),
        WorldError::BadValue => format!(in alloc; "bad-value"),
        WorldError::UnknownPeripheral => format!(in alloc; "unknown-peripheral"),
        WorldError::TooManySteps(n) => format!(in alloc; "too-many-steps {n}"),
        WorldError::TooManyTicks(n) => format!(in alloc; "too-many-ticks {n}"),
        WorldError::NoMemory => format!(in alloc; "no-memory"),
    }
}

/// What the bytes tell, as a line.
pub fn told(alloc: Global, bytes: &[u8]) -> Result<String, NoMemory> {
    let peripherals = peripherals(alloc)?;
    let line = match read_world(alloc, bytes, &peripherals) {
        Ok(world) => world_line(alloc, &world)?,
        Err(fault) => fault_line(alloc, fault)?,
    };
    Ok(line)
}
