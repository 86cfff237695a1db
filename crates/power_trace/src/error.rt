//! Why a run's report isn't there whole.
ghost use Rattle.std.specs.Prelude.{◌≡◌};

use ease_base::{Failed, NoMemory};
use thiserror::Error;

/// Why a report wasn't written whole.
#[derive(Clone, Copy, Debug, PartialEq, Eq, Error)]
pub enum RunError {
    /// A write failed; the sink's count of faults rose, and a front of the report was taken.
    #[error("a write failed")]
    WriteFault,
    /// Memory ran out; nothing was written.
    #[error("no memory")]
    NoMemory,
}

impl From<NoMemory> for RunError {
    ghost use Rattle.power_trace.specs.declared.error.RunError.TheVariants.{NoMemory as no_memory};

    ghost from_gives = { λ _ e. e ≡ no_memory };

    fn from(_error: NoMemory) -> RunError {
        RunError::NoMemory
    }
}

impl From<Failed> for RunError {
    ghost use Rattle.power_trace.specs.declared.error.RunError.TheVariants.{WriteFault as write_fault};

    ghost from_gives = { λ _ e. e ≡ write_fault };

    fn from(_error: Failed) -> RunError {
        RunError::WriteFault
    }
}
