//! Why a line can't be explained.
ghost use Rattle.std.specs.Prelude.{◌≡◌};
ghost use Rattle.casebook_stand_in.specs.declared.explain_error.ExplainError.TheVariants as errors;

use crate::NoMem;
use retro_tree::Cell;

/// Why what a line was seen to do can't be explained by lines of the profile.
#[derive(Drop)]
pub enum ExplainError {
    /// Allocation failed.
    NoMem,
    /// No text can say what was seen in this cell: there is a NUL in the name or the value, or one
    /// command for it is longer than a line.
    Unwritten(Cell),
    /// The texts that were tried last leave another value in this cell than the one observed.
    Unexplained(Cell),
}

impl From<NoMem> for ExplainError {
    ghost from_gives = { λ _ error. error ≡ errors.NoMem };

    fn from(_: NoMem) -> ExplainError {
        ExplainError::NoMem
    }
}
