//! Why a document has no account, or isn't shown.
ghost use Rattle.std.specs.Prelude.{◌≡◌};
ghost use Rattle.casebook_account.specs.Faults.{of_log, of_recording};
ghost use Rattle.casebook_account.specs.declared.account_fault.AccountFault.TheVariants as faults;

use crate::NoMem;
use casebook_recording::RecordingFault;
use retro_log::{LogFault, Refusal};

/// Why a document has no account, or why its lines aren't edited or shown.
#[derive(Drop)]
pub enum AccountFault {
    /// Allocation failed.
    NoMem,
    /// The document is neither a log nor a case.
    Log(Refusal),
    /// The document says that it is a case, and isn't one, or its lines have no recording.
    Case(RecordingFault),
    /// No line has this number.
    NoLine(u32),
    /// The lines of a case can't be shown as they were typed.
    Unshown,
}

impl From<NoMem> for AccountFault {
    ghost from_gives = { λ _ fault. fault ≡ faults.NoMem };

    fn from(_error: NoMem) -> AccountFault {
        AccountFault::NoMem
    }
}

impl From<LogFault> for AccountFault {
    ghost from_gives = { λ cause fault. fault ≡ of_log cause };

    fn from(fault: LogFault) -> AccountFault {
        match fault {
            LogFault::NoMem => AccountFault::NoMem,
            LogFault::Refused(refusal) => AccountFault::Log(refusal),
        }
    }
}

impl From<RecordingFault> for AccountFault {
    ghost from_gives = { λ cause fault. fault ≡ of_recording cause };

    fn from(fault: RecordingFault) -> AccountFault {
        match fault {
            RecordingFault::NoMem => AccountFault::NoMem,
            other => AccountFault::Case(other),
        }
    }
}
