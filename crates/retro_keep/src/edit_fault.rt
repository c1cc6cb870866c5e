//! Faults of edits.
ghost use Rattle.std.specs.Prelude.{◌≡◌};
ghost use Rattle.retro_keep.specs.declared.edit_fault.EditFault.TheVariants as faults;

use retro_tree::NoMem;
use thiserror::Error;

/// Why edits of a recording's lines can't be made.
#[derive(Clone, Copy, Debug, Drop, PartialEq, Eq, Error)]
pub enum EditRefusal {
    /// Two different edits name this line (refusal 26).
    #[error("two different edits of line {0}")]
    TwoEdits(u32),
    /// The recording begins after this line (refusal 25).
    #[error("the recording begins after line {0}")]
    BeforeCheckpoint(u32),
    /// No line has this number (refusal 21).
    #[error("no line has the number {0}")]
    NoSuchLine(u32),
}

/// Why edits of a script's lines can't be made, or why making them failed.
#[derive(Clone, Copy, Debug, Drop, PartialEq, Eq, Error)]
pub enum EditFault {
    /// Two different edits name this line (refusal 26).
    #[error("two different edits of line {0}")]
    TwoEdits(u32),
    /// No line has this number (refusal 21).
    #[error("no line has the number {0}")]
    NoSuchLine(u32),
    /// Allocation failed.
    #[error("out of memory")]
    NoMem,
}

impl From<NoMem> for EditFault {
    ghost from_gives = { λ _ fault. fault ≡ faults.NoMem };

    fn from(_error: NoMem) -> EditFault {
        EditFault::NoMem
    }
}
