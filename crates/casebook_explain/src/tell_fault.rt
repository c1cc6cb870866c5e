//! Why lines can't be told.
ghost use Rattle.std.specs.Prelude.{◌≡◌};
ghost use Rattle.casebook_explain.specs.declared.tell_fault.TellFault.TheVariants as faults;

use crate::NoMem;
use retro_tree::Cell;
use std::alloc::AllocFailed;

/// No place has this many lines: places and numbers of lines have 32 bits.
pub(crate) const LINE_LIMIT: usize = 1 << 32;

/// Why lines that were seen have no recording.
#[derive(Drop)]
pub enum TellFault {
    /// Allocation failed.
    NoMem,
    /// The first state isn't lawful with the shelves of the lines: a file is over the limit, or
    /// something is in no directory.
    LawlessState,
    /// The line with this place, counted from 1, can't be explained.
    Line(u32, LineFault),
    /// There are more lines than can be counted with 32 bits.
    TooManyLines,
}

/// Why a line can't be explained.
#[derive(Drop)]
pub enum LineFault {
    /// Its session isn't one of the first state.
    UnknownSession,
    /// No text can say what was seen in this cell: there is a NUL in the name or the value, or one
    /// command for it is longer than a line.
    Unwritten(Cell),
    /// No text that was tried leaves in this cell what was observed.
    Unexplained(Cell),
}

impl From<NoMem> for TellFault {
    ghost from_gives = { λ _ fault. fault ≡ faults.NoMem };

    fn from(_: NoMem) -> TellFault {
        TellFault::NoMem
    }
}

impl<T: Drop> From<AllocFailed<T>> for TellFault {
    ghost from_gives = { λ _ fault. fault ≡ faults.NoMem };

    fn from(_: AllocFailed<T>) -> TellFault {
        TellFault::NoMem
    }
}
