//! Runs of a machine on power rows, and their reports.
#![tactic(auto)]

mod error;
mod event_text;
mod laws;
mod line;
mod live;
mod report_line;
mod rows;
mod runner;
mod world_run;

pub use error::RunError;
pub use laws::a_line_has_at_most_256_bytes;
pub use line::Line;
pub use live::Live;
pub use report_line::{boot_line, end_line, event_line, trap_line};
pub use rows::send_told;
pub use runner::Runner;
pub use world_run::run;
