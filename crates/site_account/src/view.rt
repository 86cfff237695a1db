//! What the functions that write a task's lines look things up in.
use crate::places::SitePlace;
use io_depend::Depends;
use task_ast::{Core, CoreTask};

/// A task of a program, the places of its sites, how many sites it has, and what `depend` told of it.
#[derive(Clone, Copy)]
pub struct View<'a> {
    pub core: &'a Core,
    pub task: &'a CoreTask,
    pub places: &'a [SitePlace],
    pub count: u32,
    pub depends: &'a Depends,
}
