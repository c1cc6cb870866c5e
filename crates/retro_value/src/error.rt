//! Why a value isn't read.
ghost use Rattle.std.specs.Prelude.{◌≡◌};
ghost use Rattle.retro_value.specs.declared.error.ReadError.TheVariants as errors;

use json::Invalid;
use std::alloc::AllocError;
use thiserror::Error;

/// Why a value isn't read.
#[derive(Debug, Drop, Error)]
pub enum ReadError {
    /// Allocation failed.
    #[error("out of memory")]
    NoMem,
    /// The text isn't exactly one JSON value.
    #[error("not a JSON value")]
    NotJson,
}

impl From<AllocError> for ReadError {
    ghost from_gives = { λ _ error. error ≡ errors.NoMem };

    fn from(_error: AllocError) -> ReadError {
        ReadError::NoMem
    }
}

impl From<Invalid> for ReadError {
    ghost from_gives = { λ _ error. error ≡ errors.NotJson };

    fn from(_error: Invalid) -> ReadError {
        ReadError::NotJson
    }
}
