//! Laws of every run over power failures: every record that an attempt follows was made with what its site is valued at
//! now, and what is committed is what an unbroken run does with the retained readings.
#![tactic(auto)]

mod laws;

pub use laws::{
    a_record_that_is_followed_agrees, a_trap_is_that_of_the_unbroken_run,
    what_is_committed_is_what_an_unbroken_run_does,
};
