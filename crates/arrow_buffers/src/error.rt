//! Why offsets are refused.
ghost use Rattle.arrow_buffers.specs.declared.error.OffsetError.TheVariants.{OutOfMemory};
ghost use Rattle.std.specs.Prelude.{◌≡◌};

use std::alloc::{AllocError, AllocFailed};
use thiserror::Error;

/// Why offsets are refused.
#[derive(Clone, Copy, Debug, PartialEq, Eq, Error)]
pub enum OffsetError {
    /// There is no offset.
    #[error("Empty")]
    Empty,
    /// The first offset is negative.
    #[error("Negative")]
    Negative,
    /// An offset is below the one before it.
    #[error("NotMonotone")]
    NotMonotone,
    /// An offset would pass the greatest number of its type.
    #[error("Overflow")]
    Overflow,
    /// Memory ran out.
    #[error("OutOfMemory")]
    OutOfMemory,
}

impl From<AllocError> for OffsetError {
    ghost from_gives = { λ _ e. e ≡ OutOfMemory };

    fn from(_error: AllocError) -> OffsetError {
        OffsetError::OutOfMemory
    }
}

impl<T: Drop> From<AllocFailed<T>> for OffsetError {
    ghost from_gives = { λ _ e. e ≡ OutOfMemory };

    fn from(_error: AllocFailed<T>) -> OffsetError {
        OffsetError::OutOfMemory
    }
}
