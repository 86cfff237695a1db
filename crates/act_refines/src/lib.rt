//! Laws on acts: the code of each act does on the machine what the plan's act does, cut anywhere.
#![tactic(auto)]

mod beginnings;
mod cut;
mod laws;
mod memory;
mod transfers;
mod valued;

pub use beginnings::an_attempt_begins_under_bank_as_planned;
pub use cut::{
    each_word_is_of_a_cell, every_cut_before_a_trap_shows_a_front, every_cut_shows_a_front,
};
pub use laws::{
    a_block_is_entered_as_planned, a_block_is_left_as_planned, a_block_is_sealed_as_planned,
    a_call_chooses_as_planned, a_call_is_issued_as_planned, a_call_is_sealed_as_planned,
    a_call_is_valued_as_planned, a_call_with_a_target_is_valued_as_planned,
    a_copy_chooses_as_planned, a_copy_goes_by_its_class_as_planned, a_copy_is_sealed_as_planned,
    a_kept_word_is_taken_as_planned, a_lock_is_set_as_planned, a_look_is_as_planned,
    a_record_is_dropped_as_planned, a_region_is_restored_as_planned, a_region_is_saved_as_planned,
    a_statement_is_done_as_planned, a_test_goes_as_planned, a_word_is_written_as_planned,
    a_word_without_a_target_is_not_written_as_planned, an_attempt_begins_as_planned,
    an_instance_is_committed_as_planned,
};
pub use memory::{
    a_note_keeps_memory, a_target_keeps_memory, a_write_keeps_memory, arguments_keep_memory,
    memory_is_related_between_acts, no_target_keeps_memory, same_fram_keeps_cells,
    words_in_between_keep_memory,
};
pub use transfers::{
    kept_words_are_put_as_planned, words_are_kept_as_planned, words_come_back_as_planned,
    words_go_across_as_planned, words_go_aside_as_planned,
};
pub use valued::{a_copy_is_noted, a_copy_is_valued_as_planned};
