//! The regions of a task, and how a copy is carried out over power failures.
#![tactic(auto)]

mod class;
mod laws;
mod owners;
mod regions;

pub use class::{DmaClass, Memory, class_of};
pub use laws::{first_arrays_ascend, no_array_is_in_two_regions};
pub use regions::{Regions, split};
