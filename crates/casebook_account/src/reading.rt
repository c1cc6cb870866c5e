//! Reads accounts.
ghost use Rattle.std.specs.Prelude.{◌≡◌, ◌≤◌, ◌⊎◌, ◌^◌, ◌++◌, IfErr, IfOk, OnOk, is_some};
ghost use Rattle.std.specs.Prelude.{length, map, true};
ghost use Rattle.casebook_about.specs.Rows.{user_view};
ghost use Rattle.casebook_typed.specs.Values.{session_value};
ghost use Rattle.casebook_account.specs.Accounts.{IsAccountOf, IsCaseAccount, IsNoAccount, IsNoCase};
ghost use Rattle.casebook_account.specs.Accounts.{IsNoOther, IsNotShown, IsOtherAccount, IsShownAccount};
ghost use Rattle.casebook_account.specs.Accounts.{user_if, users_from};
ghost use Rattle.casebook_recording.specs.declared.recording_fault.RecordingFault.TheVariants as faults;

use crate::NoMem;
use crate::account::{Account, Machine};
use crate::account_fault::AccountFault;
use crate::attributes::attributes_seen;
use crate::lacks::{incomplete_of, unseen_in};
use crate::machine_line::{machine_lines, printed};
use casebook_about::SessionUser;
use casebook_case::{Case, CaseFault, read_case};
use casebook_explain::Noting;
use casebook_recording::{RecordingFault, ToldCase, told_case};
use casebook_typed::Session;
use retro_log::{LogFault, Refusal, read_log};
use std::alloc::Global;

/// Appends the user of a session, if its login name is known.
fn push_user(
    alloc: Global,
    users: &mut Vec<SessionUser>,
    number: u32,
    session: &Session<'_>,
) -> Result<(), NoMem>
    ensures { OnOk result (map user_view users.new.items
        ≡ map user_view users.old.items ++ user_if number (session_value session.now).start) }
{
    if let Some(start) = session.start {
        if !start.login.is_empty() {
            users.push(SessionUser {
                session: number,
                user: printed(alloc, start.login.as_slice())?.into_string(),
            })?;
        }
    }
    Ok(())
}

/// Returns the users of sessions, of which the first has the number 1.
fn users_of(alloc: Global, sessions: &[Session<'_>]) -> Result<Vec<SessionUser>, RecordingFault>
    ensures ok { IfOk result (λ users. map user_view users.items
        ≡ users_from 1 (map session_value sessions.now)) }
    ensures err { IfErr result (λ fault. fault ≡ faults.NoMem
        ⊎ fault ≡ faults.TooManySessions × 2 ^ 32 ≤ length sessions.now) }
{
    let mut users = Vec::new(alloc);
    for (index, session) in sessions.iter().enumerate() {
        let Ok(number) = u32::try_from(index + 1) else {
            return Err(RecordingFault::TooManySessions);
        };
        push_user(alloc, &mut users, number, session)?;
    }
    Ok(users)
}

/// Returns the account of a case.
fn case_account(alloc: Global, case: &Case) -> Result<Account, RecordingFault>
    ensures ok { IfOk result (IsCaseAccount case.now) }
    ensures err { IfErr result (IsNoCase case.now) }
{
    let ToldCase { typed, told } = told_case(alloc, case)?;
    let users = users_of(alloc, typed.sessions.as_slice())?;
    let incomplete = incomplete_of(alloc, typed.sessions.as_slice())?;
    let unseen = unseen_in(alloc, case.unseen.as_slice())?;
    let typed = typed.lines.as_slice();
    let lines = machine_lines(alloc, told.lines(), typed)?;
    let attributes = attributes_seen(alloc, &case.first, lines.as_slice(), typed)?;
    let recording = told.into_recording(alloc, Noting::WithNeeds)?;
    Ok(Account {
        recording,
        machine: Some(Machine {
            lines,
            users,
            incomplete,
            unseen,
            attributes,
        }),
    })
}

/// Returns the account of a document that isn't a log, if it says that it is a case.
fn account_of_other(alloc: Global, bytes: &[u8], refusal: Refusal) -> Result<Account, AccountFault>
    ensures ok { IfOk result (IsOtherAccount bytes.now) }
    ensures err { IfErr result (IsNoOther bytes.now refusal) }
{
    match read_case(alloc, bytes) {
        Ok(case) => Ok(case_account(alloc, &case)?),
        Err(CaseFault::NoMem) => Err(AccountFault::NoMem),
        Err(CaseFault::NotText | CaseFault::NotJson | CaseFault::NotACase) => {
            Err(AccountFault::Log(refusal))
        }
        Err(fault) => Err(AccountFault::Case(RecordingFault::Case(fault))),
    }
}

/// Returns the account that a document has: that of a log, or that of a case.
///
/// # Errors
///
/// `Log` with the refusal of a document that is no log and doesn't say that it is a case, or `Case`
/// with the fault of a case.
pub fn read_account(alloc: Global, bytes: &[u8]) -> Result<Account, AccountFault>
    ensures ok { IfOk result (IsAccountOf bytes.now) }
    ensures err { IfErr result (IsNoAccount bytes.now) }
{
    match read_log(alloc, bytes) {
        Ok(recording) => Ok(Account {
            recording,
            machine: None,
        }),
        Err(LogFault::NoMem) => Err(AccountFault::NoMem),
        Err(LogFault::Refused(refusal)) => account_of_other(alloc, bytes, refusal),
    }
}

/// Returns the account that a document has, with its recording as it is shown.
///
/// # Errors
///
/// Those of [`read_account`], or `Unshown` if the lines of a case have no such recording.
pub fn read_shown(alloc: Global, bytes: &[u8]) -> Result<Account, AccountFault>
    ensures ok { IfOk result (IsShownAccount bytes.now) }
    ensures err { IfErr result (IsNotShown bytes.now) }
{
    let account = read_account(alloc, bytes)?;
    account.into_shown(alloc)
}
