//! Marks, which say what an instruction of an image stands for, and their kinds.
ghost use Rattle.std.specs.Prelude.{◌≡◌, Some};
ghost use Rattle.word_isa.specs.Codes as spec;

/// What an instruction stands for. The table says at which instruction each kind stands, and what its site is.
///
/// | Code | Kind | At | Site |
/// |---|---|---|---|
/// | 1 | begin of a task | LDI | the task |
/// | 2 | look at the clock | TIME | the site |
/// | 3 | a kept result is taken | MOV | the site |
/// | 4 | a record is dropped | ST | the site |
/// | 5 | issue of a peripheral | IO | the site |
/// | 6 | a record is sealed | ST | the site |
/// | 7 | copy | DMA | the site |
/// | 8 | commit of a task | ST | the next task, 0 where the program stops |
#[derive(Clone, Copy, Debug, PartialEq, Eq)]
pub enum MarkKind {
    Begin,
    Look,
    Kept,
    Drop,
    Issue,
    Seal,
    Copy,
    Commit,
}

impl MarkKind {
    /// The kind that a byte of an image stands for, 1 to 8.
    pub fn of(code: u8) -> Option<MarkKind>
        ensures { result ≡ spec.mark_kind_of code }
    {
        match code {
            1 => Some(MarkKind::Begin),
            2 => Some(MarkKind::Look),
            3 => Some(MarkKind::Kept),
            4 => Some(MarkKind::Drop),
            5 => Some(MarkKind::Issue),
            6 => Some(MarkKind::Seal),
            7 => Some(MarkKind::Copy),
            8 => Some(MarkKind::Commit),
            _ => None,
        }
    }

    /// The byte that stands for the kind in an image.
    pub fn code(self) -> u8
        ensures value { result ≡ spec.mark_code self }
        ensures back { spec.mark_kind_of result ≡ Some self }
    {
        match self {
            MarkKind::Begin => 1,
            MarkKind::Look => 2,
            MarkKind::Kept => 3,
            MarkKind::Drop => 4,
            MarkKind::Issue => 5,
            MarkKind::Seal => 6,
            MarkKind::Copy => 7,
            MarkKind::Commit => 8,
        }
    }
}

/// What the instruction at a code address stands for: a kind, a site or a task, and the task whose code it is, from 1 to 64,
/// or 0 in an image of version 1.
#[derive(Clone, Copy, Debug, PartialEq, Eq)]
pub struct Mark {
    pub at: u32,
    pub kind: MarkKind,
    pub site: u8,
    pub task: u8,
}
