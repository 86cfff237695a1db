//! What surrounds a statement, as far as the rules ask for it.
use crate::names::Names;
use crate::points::Points;
use task_ast::Array;

/// The tables, the variables of the loops around, unrolled ones among them, how many pure loops these are, and whether
/// an `if` is around.
#[derive(Clone, Copy)]
pub struct Surroundings<'a, 'n> {
    pub names: &'a Names<'n>,
    pub arrays: &'a [Array],
    pub points: &'a Points,
    pub barred: &'a [u32],
    pub level: u32,
    pub branched: bool,
}
