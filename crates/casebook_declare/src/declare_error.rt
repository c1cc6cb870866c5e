//! Errors of texts.
ghost use Rattle.std.specs.Prelude.{◌≡◌};
ghost use Rattle.casebook_declare.specs.declared.declare_error.DeclareError.TheVariants as errors;

use crate::NoMem;
use std::alloc::AllocFailed;
use thiserror::Error;

/// Why a text isn't what `declare -p` prints, or why reading it failed.
#[derive(Clone, Copy, Debug, Drop, PartialEq, Eq, Error)]
pub enum DeclareError {
    /// Allocation failed.
    #[error("out of memory")]
    NoMem,
    /// No newline ends the last row.
    #[error("the variables are cut off")]
    CutOff,
    /// The row with this number isn't as bash prints it. The first row's number is 1.
    #[error("row {0} isn't as `declare -p` prints it")]
    NotPrinted(usize),
}

impl From<NoMem> for DeclareError {
    ghost from_gives = { λ _ error. error ≡ errors.NoMem };

    fn from(_error: NoMem) -> DeclareError {
        DeclareError::NoMem
    }
}

impl<T: Drop> From<AllocFailed<T>> for DeclareError {
    ghost from_gives = { λ _ error. error ≡ errors.NoMem };

    fn from(_error: AllocFailed<T>) -> DeclareError {
        DeclareError::NoMem
    }
}
