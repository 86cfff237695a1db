//! Code that is cut anywhere: what outlives a failure, what is seen of an act and of a boot so far, and laws on each act.
#![tactic(auto)]

mod laws;
mod sites;
mod words;

pub use laws::{
    a_beginning_is_cut_well, a_commit_is_cut_well, a_commit_leaves_a_step, a_lock_is_cut_well,
    a_region_is_restored_in_cuts, a_region_is_saved_in_cuts, a_statement_is_cut_well,
    a_test_is_cut_well,
};
pub use sites::{
    a_beginning_of_a_block_is_cut_well, a_choice_of_a_call_is_cut_well,
    a_choice_of_a_copy_is_cut_well, a_copy_by_its_class_is_cut_well, a_dropped_record_is_cut_well,
    a_look_is_cut_well, a_sealed_block_is_cut_well, a_sealed_call_is_cut_well,
    a_sealed_copy_is_cut_well, a_taken_word_is_cut_well, a_value_of_a_call_is_cut_well,
    a_value_of_a_copy_is_cut_well, a_written_word_is_cut_well, an_end_of_a_block_is_cut_well,
    an_issue_is_cut_well,
};
pub use words::{
    kept_words_are_cut_well, put_words_are_cut_well, words_that_come_back_are_cut_well,
    words_that_go_across_are_cut_well, words_that_go_aside_are_cut_well,
};
