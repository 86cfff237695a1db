//! Lines of code, where the words of a program lie, and the code of expressions and of statements without sites.
#![tactic(auto)]

mod areas;
mod assigning;
mod code;
mod expressions;
mod line;
mod operators;
mod places;
mod sizes;
mod statements;

pub use areas::{Free, Placed, area_at, areas_of, pointer_cell};
pub use code::Code;
pub use line::{Line, Sign};
pub use sizes::{expr_size, statement_size, statements_size, target_size};
