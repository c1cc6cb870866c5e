//! Refusals of repairs.
ghost use Rattle.std.specs.Prelude.{◌≡◌};
ghost use Rattle.retro_redo.specs.RepairFault.{fault_number, fault_of};
ghost use Rattle.retro_redo.specs.declared.repair_fault.RepairFault.TheVariants as faults;

use retro_keep::EditRefusal;
use retro_tree::NoMem;
use thiserror::Error;

/// Why a repair is refused.
#[derive(Clone, Copy, Debug, Drop, PartialEq, Eq, Error)]
pub enum RepairFault {
    /// Two different edits name this line (refusal 26).
    #[error("two different edits of line {0}")]
    TwoEdits(u32),
    /// An edit names this line, from 1 on, and the recording begins after it (refusal 25).
    #[error("the recording begins after line {0}")]
    BeforeCheckpoint(u32),
    /// No line has this number (refusal 21).
    #[error("no line has the number {0}")]
    NoSuchLine(u32),
    /// The list of pieces is empty or has a zero (refusal 22).
    #[error("no cut into pieces")]
    NoCut,
    /// Over sixteen workers (refusal 23).
    #[error("too many workers")]
    TooManyWorkers,
    /// Out of memory (refusal 24).
    #[error("out of memory")]
    OutOfMemory,
}

impl RepairFault {
    /// Returns the number of the refusal: from 21 to 26.
    pub fn number(&self) -> u8
        ensures { result ≡ fault_number self.now }
    {
        match self {
            RepairFault::TwoEdits(_) => 26,
            RepairFault::BeforeCheckpoint(_) => 25,
            RepairFault::NoSuchLine(_) => 21,
            RepairFault::NoCut => 22,
            RepairFault::TooManyWorkers => 23,
            RepairFault::OutOfMemory => 24,
        }
    }
}

impl From<NoMem> for RepairFault {
    ghost from_gives = { λ _ fault. fault ≡ faults.OutOfMemory };

    fn from(_error: NoMem) -> RepairFault {
        RepairFault::OutOfMemory
    }
}

impl From<EditRefusal> for RepairFault {
    ghost from_gives = { λ refusal fault. fault ≡ fault_of refusal };

    fn from(refusal: EditRefusal) -> RepairFault {
        match refusal {
            EditRefusal::TwoEdits(number) => RepairFault::TwoEdits(number),
            EditRefusal::BeforeCheckpoint(number) => RepairFault::BeforeCheckpoint(number),
            EditRefusal::NoSuchLine(number) => RepairFault::NoSuchLine(number),
        }
    }
}
