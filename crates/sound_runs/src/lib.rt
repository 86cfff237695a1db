//! Runs of compiled code over power rows keep what the rules say of events and of what is committed.
#![tactic(auto)]

mod laws;

pub use laws::{
    a_journal_keeps_what_the_rules_say, a_journal_shows_a_run_of_its_plan,
    code_that_runs_a_plan_keeps_what_the_rules_say,
};
