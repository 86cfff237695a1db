//! World files: the power rows, readings and retained words of a run, as TOML.
#![tactic(auto)]

mod error;
mod keys;
mod laws;
mod limits;
mod parts;
mod reading;
mod tree;
mod values;

pub use error::WorldError;
pub use laws::{peripherals_of_a_program_are_apart, peripherals_of_an_image_are_apart};
pub use reading::read_world;
