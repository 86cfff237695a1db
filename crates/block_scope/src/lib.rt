//! Blocks of I/O calls: the mode that a block has inside, and the modes of the blocks around a place.
#![tactic(auto)]

mod entering;
mod scopes;

pub use entering::enter;
pub use scopes::Scopes;
