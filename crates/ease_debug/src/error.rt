//! Why bytes are no script.
ghost use Rattle.std.specs.Prelude.{◌≡◌};

use ease_base::NoMemory;
use thiserror::Error;

/// Why bytes weren't read as a script.
#[derive(Clone, Copy, Debug, PartialEq, Eq, Error)]
pub enum ScriptError {
    /// The first line, from 1, that may not stand.
    #[error("line {0} is no command")]
    Line(u32),
    /// Memory ran out.
    #[error("no memory")]
    NoMemory,
}

impl From<NoMemory> for ScriptError {
    ghost use Rattle.ease_debug.specs.declared.error.ScriptError.TheVariants.{NoMemory as no_memory};

    ghost from_gives = { λ _ e. e ≡ no_memory };

    fn from(_error: NoMemory) -> ScriptError {
        ScriptError::NoMemory
    }
}
