//! Laws on the words that stand for a plan's cells: each write of a plan is one word on the machine, and leaves the two alike.
#![tactic(auto)]

mod laws;

pub use laws::{
    a_block_s_record_is_sealed, a_call_s_record_is_sealed, a_commit_is_one_word,
    a_copy_s_record_is_sealed, a_write_of_the_plan_is_one_word,
};
