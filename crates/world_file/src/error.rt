//! Why some bytes are no world.
ghost use Rattle.std.specs.Prelude.{◌≡◌};

use ease_base::NoMemory;
use thiserror::Error;

/// The first test that the bytes fail, in the order in which they are made (docs/FORMATS.md, "World files").
#[derive(Clone, Copy, Debug, PartialEq, Eq, Error)]
pub enum WorldError {
    /// The bytes are no TOML in UTF-8.
    #[error("no TOML")]
    NotToml,
    /// A key of the top table or of a power row is unknown, or a row lacks `on`.
    #[error("an unknown key, or a row without `on`")]
    BadKey,
    /// A value is none that may stand there.
    #[error("a value that may not stand there")]
    BadValue,
    /// A key of the readings is no peripheral's name.
    #[error("an unknown peripheral")]
    UnknownPeripheral,
    /// The sum of all `on`, above 4194304; at most the greatest number of 64 bits is told.
    #[error("{0} steps")]
    TooManySteps(u64),
    /// The sum of all `on` and all `off`, above 4294967295; at most the greatest number of 64 bits is told.
    #[error("{0} ticks")]
    TooManyTicks(u64),
    /// Memory ran out.
    #[error("no memory")]
    NoMemory,
}

impl From<NoMemory> for WorldError {
    ghost use Rattle.world_file.specs.declared.error.WorldError.TheVariants.{NoMemory as no_memory};

    ghost from_gives = { λ _ e. e ≡ no_memory };

    fn from(_error: NoMemory) -> WorldError {
        WorldError::NoMemory
    }
}
