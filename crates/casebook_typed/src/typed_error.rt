//! Why a spool says no lines.
ghost use Rattle.casebook_typed.specs.declared.typed_error.TypedError.TheVariants as errors;

use crate::NoMem;
use std::alloc::AllocFailed;
use thiserror::Error;

/// Why a spool says no lines.
#[derive(Clone, Copy, Debug, Drop, PartialEq, Eq, Error)]
pub enum TypedError {
    /// Allocation failed.
    #[error("out of memory")]
    NoMem,
    /// The record of this observation, counted from 0, begins a line that an earlier one begins or
    /// ends, or ends a line that an earlier one ends.
    #[error("the record of observation {0} contradicts an earlier one")]
    Contradiction(usize),
}

impl From<NoMem> for TypedError {
    ghost use Rattle.std.specs.Prelude.{◌≡◌};

    ghost from_gives = { λ _ error. error ≡ errors.NoMem };

    fn from(_error: NoMem) -> TypedError {
        TypedError::NoMem
    }
}

impl<T: Drop> From<AllocFailed<T>> for TypedError {
    ghost use Rattle.std.specs.Prelude.{◌≡◌};

    ghost from_gives = { λ _ error. error ≡ errors.NoMem };

    fn from(_error: AllocFailed<T>) -> TypedError {
        TypedError::NoMem
    }
}
