//! Where the faults of a text stand: laws on the reader and the checks together.
#![tactic(auto)]

mod laws;

pub use laws::{the_first_fault_of_a_text_is_the_least, the_places_of_a_program_rise};
