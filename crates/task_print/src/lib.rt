//! Printing: from the tree of a program to a text that reads as it.
#![tactic(auto)]

mod operator;
mod print;
mod print_expr;
mod print_site;
mod print_stmt;
mod put;

pub use print::print_program;
