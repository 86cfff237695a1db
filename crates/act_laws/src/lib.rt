//! Laws on the code of acts: on the machine each template does what its act says, within its steps.
#![tactic(auto)]

mod laws;

pub use laws::{
    a_block_is_entered, a_block_is_left, a_block_is_sealed, a_boot_finds_its_task, a_call_chooses,
    a_call_is_issued, a_call_is_sealed, a_call_is_valued, a_call_with_a_target_is_valued,
    a_copy_chooses, a_copy_goes_by_its_class, a_copy_is_sealed, a_copy_is_valued,
    a_kept_word_is_taken, a_lock_is_set, a_look_keeps_the_time, a_record_is_dropped,
    a_region_is_restored, a_region_is_saved, a_statement_stays_within_its_weight,
    a_test_goes_by_its_word, a_word_is_written, a_word_without_a_target_is_not_written,
    an_attempt_begins, an_instance_is_committed, arguments_are_valued_in_order, kept_words_are_put,
    words_are_kept, words_come_back, words_go_across, words_go_aside,
};
