//! Whether a journal is one that the rules of attempts allow, and its first line where it isn't. Here are two parts: how many of
//! its first lines have steps and looks that fit the world; and how many go along the rules, by a walk of its boots beside
//! them, with laws up to whole attempts.
#![tactic(auto)]

mod around;
mod attempts;
mod boots;
mod calls;
mod copies;
mod fitting;
mod journal;
mod laws;
mod ranges;
mod same;
mod statements;
mod walking;

pub use around::Around;
pub use boots::lines_along;
pub use fitting::fitting_lines;
pub use journal::{ReportBoot, ReportEvent, ReportPlace, TimedEvent};
pub use laws::{
    a_block_goes_along, a_call_goes_along, a_commit_goes_along, a_copy_goes_along,
    a_drop_goes_along, a_look_goes_along, a_seal_goes_along, a_statement_goes_along,
    a_word_goes_along, an_attempt_goes_along, an_exit_goes_along, an_issue_goes_along,
    drops_go_along,
};
