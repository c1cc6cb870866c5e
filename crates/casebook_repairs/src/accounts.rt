//! Accounts of documents: of logs and of cases.
ghost use Rattle.std.specs.Prelude.{◌≡◌, IfErr, IfOk, option_map};
ghost use Rattle.casebook_account.specs.Accounts.{IsAccountOf, IsShownAccount};
ghost use Rattle.casebook_view.specs.Sources.{source_view};
ghost use Rattle.casebook_repairs.specs.Labels.{lines_view, seen_by, seen_of, source_by};
ghost use Rattle.casebook_recording.specs.Refusals.{refusal_of};
ghost use Rattle.casebook_repairs.specs.Stops.{NamesAccount, NamesCase, StopsAccount};
ghost use Rattle.casebook_repairs.specs.Views.{document_view};

use crate::NoMem;
use crate::document::Document;
use crate::stop::Stop;
use casebook_account::{Account, AccountFault, Machine, read_account, read_shown};
use casebook_recording::RecordingFault;
use casebook_view::{Seen, Source};
use retro_tree::Text;
use std::alloc::Global;

/// The number of the refusal of an edit that no line has.
const NO_LINE: u8 = 21;

/// Returns why a case has no log.
pub fn case_stop<'a>(name: &'a str, fault: &RecordingFault) -> Stop<'a>
    ensures { NamesCase name.entry.now (refusal_of fault.now) result }
{
    match fault.refusal() {
        Some(refusal) => Stop::BadCase(name, refusal),
        None => Stop::OutOfMemory,
    }
}

/// Returns why a document has no account, or why its lines aren't edited or shown.
pub(crate) fn account_stop<'a>(name: &'a str, fault: &AccountFault) -> Stop<'a>
    ensures { NamesAccount name.entry.now fault.now result }
{
    match fault {
        AccountFault::NoMem => Stop::OutOfMemory,
        AccountFault::Log(refusal) => Stop::BadLog(name, *refusal),
        AccountFault::Case(fault) => case_stop(name, fault),
        AccountFault::NoLine(_) => Stop::BadRepair(NO_LINE),
        AccountFault::Unshown => Stop::Unshown(name),
    }
}

/// Returns the account that a document has.
pub(crate) fn account_of<'a>(alloc: Global, log: &Document<'a>) -> Result<Account, Stop<'a>>
    ensures ok { IfOk result (IsAccountOf (document_view log.now).bytes) }
    ensures err { IfErr result (StopsAccount (document_view log.now)) }
{
    match read_account(alloc, log.bytes.as_slice()) {
        Ok(account) => Ok(account),
        Err(fault) => Err(account_stop(log.name, &fault)),
    }
}

/// Returns the account that a document has, with its recording as it is shown.
pub fn shown_account<'a>(alloc: Global, log: &Document<'a>) -> Result<Account, Stop<'a>>
    ensures ok { IfOk result (IsShownAccount (document_view log.now).bytes) }
    ensures err { IfErr result (StopsAccount (document_view log.now)) }
{
    match read_shown(alloc, log.bytes.as_slice()) {
        Ok(account) => Ok(account),
        Err(fault) => Err(account_stop(log.name, &fault)),
    }
}

/// What a recorder says of the lines of a machine, by their numbers, in order, and what it doesn't
/// know.
#[derive(Drop)]
pub struct SeenLines {
    /// Those that stand as they were observed.
    observed: Vec<u32>,
    /// Those while which others were open.
    overlapping: Vec<u32>,
    /// The changes that no recorded line made.
    outside: Vec<u32>,
    /// The sessions of which some lines have no record.
    incomplete: Vec<u32>,
    /// The folders in which it wasn't always seen what lines only read.
    unseen: Vec<Text>,
}

/// Returns what a recorder says of the lines of a machine.
fn seen_of(alloc: Global, machine: &Machine) -> Result<SeenLines, NoMem>
    ensures { IfOk result (λ seen. lines_view seen ≡ seen_of machine.now) }
{
    Ok(SeenLines {
        observed: machine.observed(alloc)?,
        overlapping: machine.overlapping(alloc)?,
        outside: machine.outside(alloc)?,
        incomplete: machine.incomplete.clone()?,
        unseen: machine.unseen.clone()?,
    })
}

/// Returns what a recorder says of the lines of a machine, if there is one.
pub fn seen_by(alloc: Global, machine: &Option<Machine>) -> Result<Option<SeenLines>, NoMem>
    ensures { IfOk result (λ seen. option_map lines_view seen ≡ seen_by machine.now) }
{
    match machine {
        Some(machine) => Ok(Some(seen_of(alloc, machine)?)),
        None => Ok(None),
    }
}

/// Returns where lines come from, by what a recorder says of them, if one saw them on a machine.
pub fn source_by(seen: &Option<SeenLines>) -> Source<'_>
    ensures { source_view result ≡ source_by (option_map lines_view seen.entry.now) }
{
    match seen {
        Some(seen) => Source::Seen(Seen {
            observed: seen.observed.as_slice(),
            overlapping: seen.overlapping.as_slice(),
            outside: seen.outside.as_slice(),
            incomplete: seen.incomplete.as_slice(),
            unseen: seen.unseen.as_slice(),
        }),
        None => Source::Played,
    }
}
