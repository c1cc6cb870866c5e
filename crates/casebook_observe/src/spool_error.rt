//! Errors of spools.
use thiserror::Error;

/// Why a call on a spool failed.
#[derive(Clone, Copy, Debug, Drop, PartialEq, Eq, Error)]
pub enum SpoolError {
    /// Allocation failed.
    #[error("out of memory")]
    NoMem,
    /// The system refused to read or write it.
    #[error("the spool can't be read or written")]
    Failed,
}
