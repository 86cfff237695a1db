//! That each record is sealed in time: by the rules the seal comes next, and by its code a machine tells something soon.
#![tactic(auto)]

mod laws;

pub use laws::{
    a_journal_of_the_rules_is_sealed_in_time, something_is_told_soon_behind_what_must_be_sealed,
    the_places_of_an_image_tell_memory, the_rules_tell_a_seal_next,
};
