//! Each event of a run comes from a mark of the task that began last.
#![tactic(auto)]

mod laws;

pub use laws::{
    an_event_has_the_site_of_its_mark, every_mark_of_a_run_names_the_task_that_began_last,
    marks_of_another_task_are_refused,
};
