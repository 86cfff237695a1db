//! The errors that every layer shares: want of memory, and a failed write or fetch.
ghost use Rattle.std.specs.Prelude.{◌≡◌};
ghost use Rattle.ease_base.specs.declared.error.FetchError.TheVariants.{NoMemory as no_memory};

use std::alloc::{AllocError, AllocFailed};

/// Want of memory. It is merged with no other cause.
#[derive(Clone, Copy, Debug, PartialEq, Eq)]
pub struct NoMemory;

/// A write that failed; the sink's count of faults rose.
#[derive(Clone, Copy, Debug, PartialEq, Eq)]
pub struct Failed;

/// Why a fetch brought no contents.
#[derive(Clone, Copy, Debug, PartialEq, Eq)]
pub enum FetchError {
    /// The cabinet's count of faults rose, or its told contents lack the name.
    Failed,
    /// The contents are longer than the limit; the limit and one byte of them were brought.
    TooLong,
    NoMemory,
}

impl From<AllocError> for NoMemory {
    fn from(_error: AllocError) -> NoMemory {
        NoMemory
    }
}

impl<T: Drop> From<AllocFailed<T>> for NoMemory {
    fn from(_error: AllocFailed<T>) -> NoMemory {
        NoMemory
    }
}

impl From<AllocError> for FetchError {
    ghost from_gives = { λ _ e. e ≡ no_memory };

    fn from(_error: AllocError) -> FetchError {
        FetchError::NoMemory
    }
}
