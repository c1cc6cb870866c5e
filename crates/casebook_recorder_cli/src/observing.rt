//! Spools that are made, and records that they take.
ghost use Rattle.std.specs.Prelude.{◌≡◌, ◌≤◌, IfErr, IfOk, IfSome, OnOk, length};
ghost use Rattle.casebook_recorder_cli.specs.Taking.{IsFrom, IsNotFrom, IsNotTaken, IsStarted};
ghost use Rattle.casebook_recorder_cli.specs.Taking.{TakesRecord};
ghost use Rattle.casebook_recorder_cli.specs.declared.spools.TheConstants.{SENT_LIMIT};

use crate::fault::RecorderFault;
use crate::spools::{OpenSpool, SENT_LIMIT, Spools};
use casebook_observe::{list_again, observe, start};
use casebook_record::read_record;
use retro_path::Path;
use std::alloc::Global;

/// Makes the spool with a name, for folders, and writes what they hold to it. Returns the spool. Its
/// listing saves time, so nothing is lost if it can't be written.
pub fn start_in<S: Spools>(
    alloc: Global,
    spools: &S,
    name: &str,
    folders: &[Path],
) -> Result<S::Kept, RecorderFault>
    ensures { IfSome (S.spools spools.now) (λ all. IfOk result (λ spool.
        IsStarted all folders.now (S.Kept.holds spool))) }
{
    let OpenSpool {
        mut spool,
        mut watched,
    } = spools.make_spool(alloc, name, folders)?;
    start(alloc, &mut spool, &mut watched)?;
    list_again(alloc, &mut spool).unwrap_or(());
    Ok(spool)
}

/// Checks that what was sent isn't too long, and is of the user who sent it, if that is known.
fn check_sender(alloc: Global, sent: &[u8], sender: Option<u32>) -> Result<(), RecorderFault>
    ensures fits { OnOk result (length sent.now ≤ SENT_LIMIT) }
    ensures ok { OnOk result (IsFrom sender sent.now) }
    ensures err { IfErr result (IsNotFrom sender sent.now) }
{
    if sent.len() > SENT_LIMIT {
        return Err(RecorderFault::TooLong);
    }
    if let Some(sender) = sender {
        if read_record(alloc, sent)?.user != sender {
            return Err(RecorderFault::Forged);
        }
    }
    Ok(())
}

/// Opens the spool with a name, and takes what was sent as a record: what differs in the folders
/// that it watches, and then the record. Returns the spool.
pub fn observe_in<S: Spools>(
    alloc: Global,
    spools: &S,
    name: &str,
) -> Result<S::Kept, RecorderFault>
    ensures ok { IfSome (S.spools spools.now) (λ all. IfOk result (λ spool.
        TakesRecord all name.now (S.Kept.holds spool))) }
    ensures err { IfErr result (λ fault. IfSome (S.spools spools.now) (λ all.
        IsNotTaken all name.now fault)) }
{
    let sent = spools.sent(alloc)?;
    check_sender(alloc, sent.as_slice(), spools.sender()?)?;
    let OpenSpool {
        mut spool,
        mut watched,
    } = spools.open_spool(alloc, name)?;
    observe(alloc, &mut spool, &mut watched, sent.as_slice())?;
    Ok(spool)
}
