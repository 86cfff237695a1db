//! A world: when the power fails and for how long, what the peripherals read, and the readings of an unbroken run.
use ease_base::{List, Words};

/// The power lasts `on` steps; where a row follows, it then fails for `off` ticks, and each word of RAM and each
/// register becomes `fill`.
#[derive(Clone, Copy, Debug)]
pub struct PowerRow {
    pub on: u32,
    pub off: u32,
    pub fill: u32,
}

/// The readings of the peripheral with this number, in order.
#[derive(Debug, Drop)]
pub struct Feed {
    pub number: u8,
    pub values: Words,
}

/// All that a run of a computer meets. `retained` has the readings of the unbroken run alone.
#[derive(Debug, Drop)]
pub struct World {
    pub power: List<PowerRow>,
    pub feeds: List<Feed>,
    pub retained: Words,
}
