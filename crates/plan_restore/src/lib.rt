//! What a boot finds over power failures, in the runs of every plan.
#![tactic(auto)]

mod laws;

pub use laws::{a_boot_finds_the_committed_store, a_run_s_failure_leaves_what_one_may};
