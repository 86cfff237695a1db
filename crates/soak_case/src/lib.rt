//! The program and the world of a soak: drawn from a number.
#![tactic(auto)]

mod drawn;
mod draws;
mod readings;
mod source;

pub use readings::soak_world;
pub use source::soak_source;
