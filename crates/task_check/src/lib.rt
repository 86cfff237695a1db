//! Checks a program that was read, and gives its checked form or the first fault in text order.
#![tactic(auto)]

mod addresses;
mod around;
mod arrays;
mod copies;
mod declarations;
mod error;
mod exits;
mod expressions;
mod form_expr;
mod form_stmt;
mod laws;
mod limits;
mod names;
mod nodes;
mod places;
mod points;
mod program;
mod site_counts;
mod sites;
mod statements;
mod tasks;
mod uses;

pub use error::{CheckError, Limit};
pub use laws::{a_loop_with_sites_becomes_its_turns, the_first_fault_is_at_the_least_place};
pub use program::check;
