//! Laws on what RAM has between acts, and on constants: each write of a plan leaves them, and each word that is noted is one word.
#![tactic(auto)]

mod laws;

pub use laws::{
    a_note_is_one_word, a_target_is_noted, a_write_of_the_plan_leaves_constants,
    a_write_of_the_plan_leaves_ram, arguments_are_noted, memory_is_related,
    words_in_between_leave_ram, words_of_ram_leave_cells, words_of_ram_leave_constants,
};
