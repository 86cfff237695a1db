//! The limits of a program, each once: what is refused past them stands in docs/LANGUAGE.md, "Limits".

/// Tasks of a program.
pub const MOST_TASKS: usize = 64;
/// Declared names of a program, its tasks' among them.
pub const MOST_NAMES: usize = 256;
/// Bytes of a declared name.
pub const LONGEST_NAME: usize = 32;
/// Nonvolatile words, constants among them.
pub const MOST_NV_WORDS: u128 = 2048;
/// Volatile words.
pub const MOST_VOL_WORDS: u128 = 2048;
/// The highest number of a peripheral.
pub const HIGHEST_PERIPHERAL: u32 = 255;
/// Sites of a task.
pub const MOST_SITES: u128 = 128;
/// Words that the copies of a task may keep.
pub const MOST_KEPT_WORDS: u128 = 16384;
/// Nodes of a program, its loops with sites unrolled.
pub const MOST_NODES: u128 = 32768;
/// How deep an expression may be.
pub const DEEPEST: u32 = 24;
/// How deep statements may nest, and the `if`s of an exit.
pub const MOST_NESTED: u32 = 16;
/// Turns of a loop that is unrolled.
pub const MOST_UNROLLED: u32 = 64;
/// Turns of a pure loop.
pub const MOST_TURNS: u32 = 65535;
/// Pure loops inside one another.
pub const MOST_LOOPS: usize = 3;
/// Arguments of an I/O call.
pub const MOST_ARGUMENTS: usize = 4;
