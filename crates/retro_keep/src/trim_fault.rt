//! Faults of trimming a recording.
ghost use Rattle.std.specs.Prelude.{◌≡◌};
ghost use Rattle.retro_keep.specs.declared.trim_fault.TrimFault.TheVariants as faults;

use retro_tree::NoMem;
use thiserror::Error;

/// Why a recording can't be trimmed, or why trimming it failed.
#[derive(Clone, Copy, Debug, Drop, PartialEq, Eq, Error)]
pub enum TrimFault {
    /// The recording begins after this line (refusal 25).
    #[error("the recording begins after this line")]
    BeforeCheckpoint,
    /// Allocation failed.
    #[error("out of memory")]
    NoMem,
}

impl From<NoMem> for TrimFault {
    ghost from_gives = { λ _ fault. fault ≡ faults.NoMem };

    fn from(_error: NoMem) -> TrimFault {
        TrimFault::NoMem
    }
}
