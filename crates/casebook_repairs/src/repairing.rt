//! Repairs of accounts, and whether a log is as its lines run.
ghost use Rattle.std.specs.Prelude.{◌≡◌, IfOk, IfErr, None, option_map, true};
ghost use Rattle.retro_keep.specs.Recording.{IsRecordingOf, script_in};
ghost use Rattle.casebook_request.specs.Views.{rounds_view};
ghost use Rattle.casebook_repairs.specs.Repairs.{IsRepairBy};
ghost use Rattle.casebook_repairs.specs.Stops.{IsRefused, StopsRepair};

use crate::stop::Stop;
use casebook_account::Account;
use casebook_request::Rounds;
use retro_keep::{Edit, Recording};
use retro_log::check;
use retro_redo::{Quiet, Repair, RepairFault, repair_alone};
use retro_rounds::repair;
use std::alloc::AllocGlobal;
use std::thread::{Threads, join};

/// Whether it is wanted to know if a log is as its lines run.
#[derive(Clone, Copy, Debug, PartialEq, Eq)]
pub enum Check {
    /// It is wanted. The lines are run on a thread of their own, while they are repaired.
    Wanted,
    /// It isn't wanted.
    Unwanted,
}

/// The repair of a recording.
#[derive(Drop)]
pub(crate) struct Repaired {
    /// The repair.
    pub(crate) repair: Repair,
    /// Whether the recording was found to be as its lines run.
    pub(crate) is_recording: bool,
}

/// Returns why a repair is refused.
fn refused<'a>(fault: RepairFault) -> Stop<'a>
    ensures { IsRefused fault result }
{
    match fault {
        RepairFault::OutOfMemory => Stop::OutOfMemory,
        fault => Stop::BadRepair(fault.number()),
    }
}

/// Returns the repair of a recording with its lines edited, and with lines run ahead in parallel if
/// that is asked for.
fn repair_by<'a, R: Threads + Sync + AllocGlobal>(
    rt: &R,
    recording: &Recording,
    edits: &[Edit],
    rounds: &Option<Rounds>,
) -> Result<Repair, Stop<'a>>
    ensures ok { IfOk result
        (IsRepairBy (option_map rounds_view rounds.now) edits.now recording.now) }
    ensures err { IfErr result
        (StopsRepair (option_map rounds_view rounds.now) edits.now recording.now) }
{
    let alloc = rt.alloc();
    let repaired = match rounds {
        None => repair_alone(alloc, recording, edits),
        Some(Rounds { workers, cuts }) => {
            repair(
                rt,
                alloc,
                recording,
                edits,
                *workers,
                cuts.as_slice(),
                &Quiet,
            )
        }
    };
    match repaired {
        Ok(repair) => Ok(repair),
        Err(fault) => Err(refused(fault)),
    }
}

/// Returns the repair of a recording, and whether the recording is as its lines run. Two threads
/// find out one of them each.
fn checked_repair<'a, R: Threads + Sync + AllocGlobal>(
    rt: &R,
    recording: &Recording,
    edits: &[Edit],
    rounds: &Option<Rounds>,
) -> Result<Repaired, Stop<'a>>
    ensures repair { IfOk result (λ done.
        IsRepairBy (option_map rounds_view rounds.now) edits.now recording.now done.repair) }
    ensures checked { IfOk result (λ done. done.is_recording ≡ true
        → IsRecordingOf (script_in recording.now) recording.now) }
    ensures err { IfErr result
        (StopsRepair (option_map rounds_view rounds.now) edits.now recording.now) }
{
    let alloc = rt.alloc();
    let (is_recording, repair) = join(
        rt,
        || check(alloc, recording),
        || repair_by(rt, recording, edits, rounds),
    );
    Ok(Repaired {
        repair: repair?,
        is_recording: is_recording?,
    })
}

/// Returns the repair of an account's recording by edits of its texts. If that is wanted, it says of
/// a log whether it is as its lines run; of lines that were seen on a machine that isn't said.
pub(crate) fn repaired_by<'a, R: Threads + Sync + AllocGlobal>(
    rt: &R,
    account: &Account,
    texts: &[Edit],
    rounds: &Option<Rounds>,
    check: Check,
) -> Result<Repaired, Stop<'a>>
    ensures repair { IfOk result (λ done. IsRepairBy (option_map rounds_view rounds.now)
        texts.now account.now.recording done.repair) }
    ensures machine { IfOk result (λ done. done.is_recording ≡ true
        → account.now.machine ≡ None) }
    ensures checked { IfOk result (λ done. done.is_recording ≡ true
        → IsRecordingOf (script_in account.now.recording) account.now.recording) }
    ensures err { IfErr result
        (StopsRepair (option_map rounds_view rounds.now) texts.now account.now.recording) }
{
    match (check, &account.machine) {
        (Check::Wanted, None) => checked_repair(rt, &account.recording, texts, rounds),
        _ => Ok(Repaired {
            repair: repair_by(rt, &account.recording, texts, rounds)?,
            is_recording: false,
        }),
    }
}
