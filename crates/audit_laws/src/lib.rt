//! The walk of a journal beside the rules finds the lines that they allow, and no more; and what is answered on a report.
#![tactic(auto)]

mod laws;

pub use laws::{
    a_walk_finds_the_lines_that_are_allowed, boots_go_along,
    the_lines_that_are_right_tell_the_answer, the_report_of_a_right_journal_is_legal,
};
