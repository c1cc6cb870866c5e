//! Errors of watched folders.
use thiserror::Error;

/// Why a look at watched folders failed.
#[derive(Clone, Copy, Debug, Drop, PartialEq, Eq, Error)]
pub enum WatchError {
    /// Allocation failed.
    #[error("out of memory")]
    NoMem,
    /// A watched folder isn't there, or the system refused to look at it.
    #[error("a watched folder can't be looked at")]
    Failed,
    /// It took too long.
    #[error("the watched folders hold too much to be looked at in time")]
    TooSlow,
}
