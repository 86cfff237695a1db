//! The run of an image, counted, and its summary.
#![tactic(auto)]

mod counted;
mod counts;
mod named;
mod summary;
mod summed;

pub use counts::Counts;
pub use summed::{Summary, sum_up};
