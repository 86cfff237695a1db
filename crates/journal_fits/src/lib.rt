//! The journal of a machine fits its world, whatever its program is: its steps, its end, and its numbers. And what the rules let a
//! program do names the program's peripherals.
#![tactic(auto)]

mod laws;

pub use laws::{
    the_end_of_a_journal_fits_its_power, the_numbers_of_a_journal_are_words,
    the_rules_name_the_peripherals_of_a_program, the_steps_of_a_journal_fit_its_power,
};
