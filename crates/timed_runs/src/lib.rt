//! When things happen in a run of compiled code over power rows: looks, events and ends.
#![tactic(auto)]

mod laws;

pub use laws::{a_machine_halts_where_nothing_is_left, the_time_of_each_look_is_the_clock};
