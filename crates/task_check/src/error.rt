//! The refusals of a check, and the limits that a program can pass.
ghost use Rattle.std.specs.Prelude.{◌≡◌};
ghost use Rattle.task_check.specs.declared.error.CheckError.TheVariants.{NoMemory as no_memory};

use ease_base::{NoMemory, Pos};
use thiserror::Error;

/// A limit of docs/LANGUAGE.md.
#[derive(Clone, Copy, Debug, PartialEq, Eq)]
pub enum Limit {
    Tasks,
    Names,
    NvWords,
    VolWords,
    Length,
    NameBytes,
    PeripheralNumber,
    Turns,
    Loops,
    Sites,
    KeptWords,
    Nodes,
}

/// Why a program was refused. The rules stand in docs/LANGUAGE.md; at one place the earlier refusal
/// of this list is answered.
#[derive(Clone, Copy, Debug, PartialEq, Eq, Error)]
pub enum CheckError {
    /// A name is used that isn't declared; the use.
    #[error("a name that isn't declared, at {}:{}", .0.line, .0.column)]
    UnknownName(Pos),
    /// A declared name is one that an earlier declaration or task has; the later name.
    #[error("a name that is declared twice, at {}:{}", .0.line, .0.column)]
    TwiceNamed(Pos),
    /// A name doesn't stand for what its use needs; the use.
    #[error("a name of the wrong kind, at {}:{}", .0.line, .0.column)]
    WrongKind(Pos),
    /// A constant is written; the use.
    #[error("a constant that is written, at {}:{}", .0.line, .0.column)]
    ConstWritten(Pos),
    /// A copy stands under an `if`; the word `DMA`.
    #[error("a copy under an if, at {}:{}", .0.line, .0.column)]
    DmaUnderIf(Pos),
    /// Too many arguments or values; the word `IO`, or the declared name.
    #[error("too many, at {}:{}", .0.line, .0.column)]
    TooMany(Pos),
    /// A limit is passed, and the count that passes it.
    #[error("the limit {:?} is passed by {}, at {}:{}", .1, .2, .0.line, .0.column)]
    LimitReached(Pos, Limit, u128),
    /// Want of memory.
    #[error("want of memory")]
    NoMemory,
}

impl From<NoMemory> for CheckError {
    ghost from_gives = { λ _ e. e ≡ no_memory };

    fn from(_error: NoMemory) -> CheckError {
        CheckError::NoMemory
    }
}
