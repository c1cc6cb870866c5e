//! Faults in tables of rows.
use retro_path::NoMem;
use std::alloc::AllocFailed;
use std::num::ParseIntError;

/// A fault in a table of rows.
#[derive(Clone, Copy, Debug, PartialEq, Eq)]
pub enum RowError {
    /// A row has no `: ` after its call.
    NoCall,
    /// A row has no ` => ` before what is wanted.
    NothingWanted,
    /// A row begins with `- `, and no header is above it.
    NoHeader,
    /// An escape isn't closed, or isn't known.
    BadEscape,
    /// An allocation failed.
    NoMem,
}

impl From<NoMem> for RowError {
    fn from(_: NoMem) -> Self {
        Self::NoMem
    }
}

impl<T: Drop> From<AllocFailed<T>> for RowError {
    fn from(_: AllocFailed<T>) -> Self {
        Self::NoMem
    }
}

impl From<ParseIntError> for RowError {
    fn from(_: ParseIntError) -> Self {
        Self::BadEscape
    }
}
