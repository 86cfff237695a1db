//! The machine: one step at a time, power failures, and what it shows.
#![tactic(auto)]

mod act;
mod cell;
mod ending;
mod events;
mod laws;
mod loading;
mod machine;
mod processor;
mod registers;
mod stepped;

pub use cell::Sign;
pub use ending::Ending;
pub use laws::{
    a_straight_line_runs, fram_is_what_was_written, runs_add_up,
    the_clock_counts_steps_and_failures,
};
pub use machine::Machine;
pub use stepped::Stepped;
