//! What lies outside a batteryless computer: the readings of its peripherals, the clock, and the power; and what it shows.
#![tactic(auto)]

mod clock;
mod event;
mod laws;
mod outside;
mod readings;
mod world;

pub use clock::Clock;
pub use event::{Args, Event, RunEnd};
pub use laws::kept_counts_tell_every_reading;
pub use outside::Outside;
pub use readings::Readings;
pub use world::{Feed, PowerRow, World};
