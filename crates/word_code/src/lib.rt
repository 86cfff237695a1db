//! The code of a plan: the words of its acts, their marks, and the image that holds them.
#![tactic(auto)]

mod act_lines;
mod beginnings;
mod finding;
mod frame;
mod heads;
mod image;
mod job;
mod laws;
mod lines;
mod parts;
mod simple;
mod sizes;
mod tables;
mod tasks;
mod values;

pub use image::lower;
pub use laws::every_plan_is_within_its_formulas;
