//! Faults of `cp` and `mv`.
use crate::reason::Reason;

/// Why a source can't be copied or moved, and which operand the diagnostic names.
#[derive(Drop, Clone, Copy, Debug, PartialEq, Eq)]
pub(crate) enum TransferFault {
    /// A fault on the source.
    Source(Reason),
    /// A fault on the last operand.
    Target(Reason),
}
