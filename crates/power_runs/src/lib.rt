//! Runs of compiled code over power rows: boot by boot they follow the plan's run.
#![tactic(auto)]

mod laws;

pub use laws::{
    a_failure_leaves_what_lasts, a_run_over_power_rows_is_followed,
    the_events_of_a_boot_are_those_seen, the_looks_of_a_journal_are_due,
};
