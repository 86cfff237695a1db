//! The commands of `ease`: words, files and output, with the theorem on the one public call.
#![tactic(auto)]

mod audit_command;
mod build_command;
mod debug_command;
mod fetched;
mod lines;
mod readers;
mod refusal;
mod run_command;
mod sites_command;
mod soak_command;
mod status;
mod top;
mod walk_command;

pub use status::Status;
pub use top::ease;
