//! A line of code: an instruction, and what it shows.
use word_isa::{Instr, MarkKind};

/// What a marked instruction stands for: a kind, a site or a task, and the task whose code it is.
#[derive(Clone, Copy, Debug, PartialEq, Eq)]
pub struct Sign {
    pub kind: MarkKind,
    pub site: u8,
    pub task: u8,
}

/// An instruction, and what it stands for where it is marked.
#[derive(Clone, Copy, Debug, PartialEq, Eq)]
pub struct Line {
    pub instr: Instr,
    pub sign: Option<Sign>,
}
