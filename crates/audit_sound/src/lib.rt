//! The report of every sound image is legal.
#![tactic(auto)]

mod laws;

pub use laws::{the_journal_of_a_sound_image_is_right, the_report_of_a_sound_image_is_legal};
