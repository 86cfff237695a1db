//! The rules of attempts: which operation a batteryless computer does again over power failures, and when.
//! They are definitions; the functions do nothing, and their contracts are laws.
#![tactic(auto)]

mod laws;

pub use laws::{
    a_boot_leaves_what_its_first_events_leave, a_commit_leaves_no_record,
    a_failure_behind_a_commit_changes_no_event, a_statement_without_sites_shows_no_event,
    an_attempt_ends_by_a_commit_or_a_trap, an_unbroken_run_retains_all_readings,
    only_a_commit_changes_what_is_committed, the_steps_allowed_never_fall,
};
