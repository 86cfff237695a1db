//! Each event of compiled code over power rows comes within the steps that the rules allow.
#![tactic(auto)]

mod laws;

pub use laws::each_event_comes_within_its_steps;
