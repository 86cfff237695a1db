//! What a step of a computer may use beside the computer itself.
use crate::clock::Clock;
use crate::readings::Readings;

/// The readings that the peripherals have left, and the clock.
#[derive(Drop)]
pub struct Outside {
    pub readings: Readings,
    pub clock: Clock,
}
