//! A code address as the machine holds it: the instruction that was decoded there, and what a mark says of it.
use word_isa::{Instr, Mark, MarkKind};

/// What a mark says of the instruction at its address.
#[derive(Clone, Copy, Debug, PartialEq, Eq)]
pub struct Sign {
    pub kind: MarkKind,
    pub site: u8,
}

/// An instruction and its sign.
#[derive(Clone, Copy)]
pub struct Cell {
    pub instr: Instr,
    pub sign: Option<Sign>,
}
