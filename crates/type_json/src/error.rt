//! Why a value is not read.
ghost use Rattle.std.specs.Prelude.{◌≡◌};
ghost use Rattle.type_json.specs.declared.error.JsonError.TheVariants.{OutOfMemory};

use std::alloc::{AllocError, AllocFailed};

/// Why a JSON value is not read as a type or as a column.
#[derive(Clone, Copy, Debug, PartialEq, Eq)]
pub enum JsonError {
    /// It is none of the grammar.
    BadValue,
    /// Memory ran out.
    OutOfMemory,
}

impl From<AllocError> for JsonError {
    ghost from_gives = { λ _ e. e ≡ OutOfMemory };

    fn from(_: AllocError) -> JsonError {
        JsonError::OutOfMemory
    }
}

impl<T: Drop> From<AllocFailed<T>> for JsonError {
    ghost from_gives = { λ _ e. e ≡ OutOfMemory };

    fn from(_: AllocFailed<T>) -> JsonError {
        JsonError::OutOfMemory
    }
}
