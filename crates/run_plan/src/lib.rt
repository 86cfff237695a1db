//! The plan of a program: the acts by which each of its tasks, and each boot, keeps the rules over power failures.
#![tactic(auto)]

mod act;
mod copies;
mod parts;
mod program;
mod sites;
mod statements;

pub use act::{Act, Leg};
pub use parts::Plan;
pub use program::plan;
