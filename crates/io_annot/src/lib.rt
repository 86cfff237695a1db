//! Whether an I/O site keeps its reading or issues again, and the records that it decides by.
#![tactic(auto)]

mod choice;
mod records;

pub use choice::{Choice, Mode, decide, is_expired};
pub use records::Records;
