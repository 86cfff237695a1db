//! What a step of a computer shows to whoever watches it.

/// The arguments of an issue, `count` of them, at most four. Those from place `count` on are 0.
#[derive(Clone, Copy, Debug, PartialEq, Eq)]
pub struct Args {
    pub count: u8,
    pub a0: u32,
    pub a1: u32,
    pub a2: u32,
    pub a3: u32,
}

/// An event. A site is the number of the place in its task that the event comes from, or 0 where nothing names one.
#[derive(Clone, Copy, Debug, PartialEq, Eq)]
pub enum Event {
    /// A task begins.
    Begin(u8),
    /// A site looks at the clock, which shows this time.
    Look(u8, u32),
    /// A site takes the result that it kept.
    Kept(u8, u32),
    /// The record of a site is dropped.
    Dropped(u8),
    /// A site issues a peripheral, by its number, with these arguments, and gets this reading.
    Issued(u8, u8, Args, u32),
    /// The record of a site is made.
    Sealed(u8),
    /// A site has copied: the address of the first word, the address to which it went, and how many words.
    Copied(u8, u32, u32, u32),
    /// A task ends, and the next one is named, or 0 where the program stops.
    Commit(u8),
}

/// How a run of a computer ends: it halts or traps, or its power ends.
#[derive(Clone, Copy, Debug, PartialEq, Eq)]
pub enum RunEnd {
    Halted,
    Trapped(u32),
    Power,
}
