//! Errors that stop a run.
ghost use Rattle.std.specs.Prelude.{◌≡◌};
ghost use Rattle.retro_cli.specs.declared.stop.Stop.TheVariants as stops;
ghost use Rattle.retro_cli.specs.inner.Stop.{stop_of_words, stop_of_document, stop_of_edit};
ghost use Rattle.retro_cli.specs.inner.Stop.{stop_of_repair, stop_of_trim};

use crate::words::WordsFault;
use retro_edge::WriteFailed;
use retro_keep::{EditFault, TrimFault};
use retro_log::LogFault;
use retro_redo::RepairFault;
use retro_tree::NoMem;

/// The number of the refusal of a bad command line.
pub const BAD_WORDS: u8 = 31;

/// The number of the refusal of an edit of a number that no line has.
pub(crate) const UNKNOWN_LINE: u8 = 21;

/// The number of the refusal of a number that is below the one at which a log begins.
pub(crate) const BEFORE_CHECKPOINT: u8 = 25;

/// The number of the refusal of two different edits of a line.
pub(crate) const TWO_EDITS: u8 = 26;

/// Why a run ends before its whole answer is written.
#[derive(Clone, Copy, Debug, PartialEq, Eq)]
pub(crate) enum Stop {
    /// Allocation failed.
    NoMem,
    /// The command line, the document or the request is refused, with the refusal's number.
    Refused(u8),
    /// The input couldn't be read to its end.
    ReadFailed,
    /// The whole answer couldn't be written.
    WriteFailed,
}

impl From<NoMem> for Stop {
    ghost from_gives = { λ _ stop. stop ≡ stops.NoMem };

    fn from(_error: NoMem) -> Stop {
        Stop::NoMem
    }
}

impl From<WriteFailed> for Stop {
    ghost from_gives = { λ _ stop. stop ≡ stops.WriteFailed };

    fn from(_error: WriteFailed) -> Stop {
        Stop::WriteFailed
    }
}

impl From<WordsFault> for Stop {
    ghost from_gives = { λ fault stop. stop ≡ stop_of_words fault };

    fn from(fault: WordsFault) -> Stop {
        match fault {
            WordsFault::NoMem => Stop::NoMem,
            WordsFault::BadWords => Stop::Refused(BAD_WORDS),
        }
    }
}

impl From<LogFault> for Stop {
    ghost from_gives = { λ fault stop. stop ≡ stop_of_document fault };

    fn from(fault: LogFault) -> Stop {
        match fault {
            LogFault::NoMem => Stop::NoMem,
            LogFault::Refused(refusal) => Stop::Refused(refusal.number()),
        }
    }
}

impl From<EditFault> for Stop {
    ghost from_gives = { λ fault stop. stop ≡ stop_of_edit fault };

    fn from(fault: EditFault) -> Stop {
        match fault {
            EditFault::NoMem => Stop::NoMem,
            EditFault::TwoEdits(_) => Stop::Refused(TWO_EDITS),
            EditFault::NoSuchLine(_) => Stop::Refused(UNKNOWN_LINE),
        }
    }
}

impl From<TrimFault> for Stop {
    ghost from_gives = { λ fault stop. stop ≡ stop_of_trim fault };

    fn from(fault: TrimFault) -> Stop {
        match fault {
            TrimFault::NoMem => Stop::NoMem,
            TrimFault::BeforeCheckpoint => Stop::Refused(BEFORE_CHECKPOINT),
        }
    }
}

impl From<RepairFault> for Stop {
    ghost from_gives = { λ fault stop. stop ≡ stop_of_repair fault };

    fn from(fault: RepairFault) -> Stop {
        match fault {
            RepairFault::OutOfMemory => Stop::NoMem,
            _ => Stop::Refused(fault.number()),
        }
    }
}
