//! The boots and the end that the lines of a report tell, and the answer by how many of the lines are right.
#![tactic(auto)]

mod answer;
mod events;
mod lines;
mod tasks;

pub use answer::{Verdict, judge, line_count};
pub use lines::{Told, gather};
pub use tasks::{arounds, tables};
