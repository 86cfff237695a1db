//! The memory with which an image's first boot begins, and the words that its symbols show.
#![tactic(auto)]

mod laws;

pub use laws::{an_image_begins_with_the_first_state, the_symbols_show_what_is_committed};
