//! Why a text is no program.
ghost use Rattle.std.specs.Prelude.{◌≡◌};

use ease_base::{NoMemory, Pos};
use thiserror::Error;

/// Why `read_program` gives no program. The order of refusals stands in docs/LANGUAGE.md.
#[derive(Clone, Copy, Debug, PartialEq, Eq, Error)]
pub enum TextError {
    /// The bytes can't be divided at this place, or no program has the tokens.
    #[error("syntax")]
    Syntax(Pos),
    /// The first number above 4294967295 stands at this place.
    #[error("number too wide")]
    NumberTooWide(Pos),
    #[error("no memory")]
    NoMemory,
}

/// Why the tokens are not what is read. The cursor then stands at the token that doesn't fit.
#[derive(Clone, Copy)]
pub enum ReadError {
    Syntax,
    NoMemory,
}

impl From<NoMemory> for ReadError {
    ghost use Rattle.task_text.specs.declared.error.ReadError.TheVariants.{NoMemory as no_memory};

    ghost from_gives = { λ _ e. e ≡ no_memory };

    fn from(_error: NoMemory) -> ReadError {
        ReadError::NoMemory
    }
}
