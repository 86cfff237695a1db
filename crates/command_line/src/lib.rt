//! The words of a command line, read by `clap` as one simple command, and what they ask for.
#![tactic(auto)]

mod command;
mod laws;
mod line;

pub use command::{Command, command_of};
pub use laws::forms_are_taken;
