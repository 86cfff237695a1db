//! A journal as it is told from outside: boots and events with any numbers.
use ease_base::{List, Words};

/// Where a copy's words come from or go.
#[derive(Clone, Copy)]
pub enum ReportPlace {
    /// A word of an array, both by number from 0.
    Cell(u32, u32),
    /// The words that are kept for the copy.
    Keep,
    /// A bare address.
    Address(u32),
}

/// An event.
#[derive(Drop)]
pub enum ReportEvent {
    Begin(u32),
    /// A site and the time that it sees.
    Look(u32, u32),
    /// A site and the value that it keeps.
    Kept(u32, u32),
    Drop(u32),
    /// A site, a peripheral by its number, the arguments, and the reading.
    Issue(u32, u32, Words, u32),
    Seal(u32),
    /// A site, from where, to where, and how many words.
    Copy(u32, ReportPlace, ReportPlace, u32),
    /// The task that is next, 0 for none.
    Commit(u32),
    Trap(u32),
}

/// An event with the number of its step.
#[derive(Drop)]
pub struct TimedEvent {
    pub step: u32,
    pub event: ReportEvent,
}

/// A boot: the steps that were done when it began, and its events.
#[derive(Drop)]
pub struct ReportBoot {
    pub begun_at: u32,
    pub events: List<TimedEvent>,
}
