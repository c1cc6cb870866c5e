//! Faults of lists of lines.
ghost use Rattle.std.specs.Prelude.{◌≡◌};
ghost use Rattle.casebook_text.specs.declared.list_fault.ListFault.TheVariants as faults;

use crate::NoMem;
use std::alloc::AllocFailed;
use thiserror::Error;

/// Why an item of a list of lines is refused.
#[derive(Clone, Copy, Debug, Drop, PartialEq, Eq, Error)]
pub enum ItemFault {
    /// The text isn't `N`, `N-M`, `S:all`, `-N` or `-N-M`.
    #[error("not an item")]
    NotAnItem,
    /// No line has this number.
    #[error("no line has the number {0}")]
    NoLine(u32),
    /// No line has a number from the first to the second.
    #[error("no line has a number from {0} to {1}")]
    EmptyRange(u32, u32),
    /// No line is of this session.
    #[error("no line is of session {0}")]
    EmptySession(u32),
}

/// Why a list of lines is refused, or why reading it failed.
#[derive(Clone, Copy, Debug, Drop, PartialEq, Eq, Error)]
pub enum ListFault {
    /// An item is refused.
    #[error("item {position}: {fault}")]
    BadItem {
        /// The item's place in the list. The first is 1.
        position: usize,
        /// Why it is refused.
        fault: ItemFault,
    },
    /// Allocation failed.
    #[error("out of memory")]
    NoMem,
}

impl From<NoMem> for ListFault {
    ghost from_gives = { λ _ fault. fault ≡ faults.NoMem };

    fn from(_error: NoMem) -> ListFault {
        ListFault::NoMem
    }
}

impl<T: Drop> From<AllocFailed<T>> for ListFault {
    ghost from_gives = { λ _ fault. fault ≡ faults.NoMem };

    fn from(_error: AllocFailed<T>) -> ListFault {
        ListFault::NoMem
    }
}
