//! Reading: from the bytes of a program to its tree.
#![tactic(auto)]

mod cursor;
mod decl;
mod error;
mod exit;
mod expr;
mod loop_head;
mod operator;
mod part;
mod plain;
mod program;
mod read;
mod stmt;
mod task;

pub use error::TextError;
pub use read::{one_tree, read_or_refused, read_program};
