//! The two memories of a batteryless computer and the engine that copies words between their addresses.
#![tactic(auto)]

mod engine;
mod laws;
mod memories;

pub use engine::Engine;
pub use laws::a_transfer_is_one_update_a_word;
pub use memories::{Bus, Memories};
