//! What each test stands on: an image, and the session of a script on it.
use ease_base::{MemSink, NoMemory, Words};
use ease_debug::{DebugEnd, ScriptError, debug, read_script};
use power_trace::RunError;
use std::alloc::Global;
use word_isa::Image;
use world_file::{peripherals_of_an_image_are_apart, read_world};

// LDI r1 7, TIME r2, MOV r3 r1, ST r1 r0 5, IO r3 r1 256, ST r3 r0 6, marked as a begin of task 2 and a look, a kept value,
// a dropped record, an issue and a sealed record of site 1; LDI r4 3, LDI r5 50, LDI r6 2, DMA r5 r4 r6 of site 2;
// LDI r4 6, LDI r5 200, DMA r5 r4 r6 of site 3; IO r3 r1 7 without a mark; ST r1 r0 7, a commit of 0; TRAP 5.
// Two banks 2 words apart, a symbol `a` of four words from 1 on, three kept words from 50 on, a peripheral `temp` of number 0.
pub const EVENTS: &[u8] = &[
    69, 65, 83, 69, 2, 1, 0, 0, 2, 0, 50, 0, 3, 0, 16, 0, 0, 0, 7, 0, 16, 2, 0, 0, 32, 23, 0, 0,
    49, 4, 5, 0, 16, 19, 0, 1, 49, 22, 6, 0, 48, 19, 3, 0, 64, 2, 50, 0, 80, 2, 2, 0, 96, 2, 6, 0,
    84, 24, 6, 0, 64, 2, 200, 0, 80, 2, 6, 0, 84, 24, 7, 0, 49, 22, 7, 0, 16, 19, 5, 0, 0, 25, 0,
    0, 0, 0, 1, 0, 1, 97, 0, 1, 0, 0, 0, 4, 0, 0, 0, 1, 0, 4, 116, 101, 109, 112, 0, 9, 0, 0, 0, 0,
    0, 0, 0, 1, 2, 2, 1, 0, 0, 0, 2, 1, 2, 2, 0, 0, 0, 3, 1, 2, 3, 0, 0, 0, 4, 1, 2, 4, 0, 0, 0, 5,
    1, 2, 5, 0, 0, 0, 6, 1, 2, 9, 0, 0, 0, 7, 2, 2, 12, 0, 0, 0, 7, 3, 2, 14, 0, 0, 0, 8, 0, 2,
];

// HALT
pub const HALTING: &[u8] = &[
    69, 65, 83, 69, 1, 0, 0, 0, 0, 0, 0, 0, 0, 0, 1, 0, 0, 0, 0, 0, 0, 1, 0, 0, 0, 0, 0, 0, 0, 0,
    0, 0, 0, 0,
];

// JMP 0
pub const LOOPING: &[u8] = &[
    69, 65, 83, 69, 1, 0, 0, 0, 0, 0, 0, 0, 0, 0, 1, 0, 0, 0, 0, 0, 0, 20, 0, 0, 0, 0, 0, 0, 0, 0,
    0, 0, 0, 0,
];

/// What a session wrote, and how it ended.
#[derive(Drop)]
pub struct Played {
    pub sink: MemSink,
    pub end: Result<DebugEnd, RunError>,
}

/// Plays a script on an image, in a world of one reading of `temp` where the image has that peripheral. The k-th write fails,
/// where k is given.
pub fn play(
    alloc: Global,
    image: &Image,
    script: &str,
    fails: Option<u32>,
) -> Result<Played, NoMemory> {
    peripherals_of_an_image_are_apart();
    let text = if image.peripherals.len() == 0 {
        ""
    } else {
        "[readings]\ntemp = [9]\n"
    };
    let mut numbers = Words::new(alloc);
    if let Some(number) = fails {
        numbers.push(number)?;
    }
    let mut sink = MemSink::make(alloc, 2000, numbers)?;
    let Ok(world) = read_world(alloc, text.as_bytes(), &image.peripherals) else {
        return Err(NoMemory);
    };
    let Ok(script) = read_script(alloc, script.as_bytes(), image) else {
        return Err(NoMemory);
    };
    let end = debug(alloc, image, &world, &script, &mut sink);
    Ok(Played { sink, end })
}

/// How a script is refused, if it is.
pub fn refusal(alloc: Global, image: &Image, script: &[u8]) -> Option<ScriptError> {
    match read_script(alloc, script, image) {
        Ok(_) => None,
        Err(e) => Some(e),
    }
}
