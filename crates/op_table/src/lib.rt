//! Tables of rows whose codes and names are distinct, and the reserved words.
#![tactic(auto)]

mod macros;
mod table;
mod words;

pub use table::{Row, Table};
pub use words::reserved;
