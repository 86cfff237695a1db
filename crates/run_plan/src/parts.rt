//! A plan and its parts.
use crate::act::Act;
use ease_base::{List, Words};
use word_isa::Scheme;

/// The plan of a program under a scheme.
#[derive(Drop)]
pub struct Plan {
    pub scheme: Scheme,
    /// The acts of each boot before its first attempt.
    pub boot: List<Act>,
    /// The acts of an attempt of each task.
    pub tasks: List<List<Act>>,
    /// For each task and each of its regions the arrays that it may write first, ascending.
    pub firsts: List<List<Words>>,
}
