//! What a recorder kept.
ghost use Rattle.std.specs.Prelude.{◌≡◌, ◌++◌, IfErr, IfOk, OnOk, map};
ghost use Rattle.casebook_typed.specs.Values.{line_value, session_value};
ghost use Rattle.casebook_status.specs.Status.{HasNoStatus, HasRows, IsStatusBy, IsStatusIn};
ghost use Rattle.casebook_status.specs.Status.{has_missing, host_view, is_unseen, lacks_logins};
ghost use Rattle.casebook_status.specs.Status.{login_rows};

use crate::NoMem;
use crate::counts::counts_of;
use crate::host::Host;
use crate::logins::unrecorded;
use crate::recorded::recorded_row;
use crate::rows::{
    case_row, folders_row, lines_row, logins_row, missing_row, outside_row, overlaps_row,
    reads_row, sessions_row,
};
use casebook_case::read_case;
use casebook_recording::{RecordingFault, ToldCase, told_case};
use casebook_text::SafeLine;
use casebook_typed::Session;
use std::alloc::Global;

/// What a recorder kept, and whether something of it is missing.
#[derive(Drop)]
pub struct Status {
    /// The rows.
    pub rows: Vec<SafeLine>,
    /// Whether a row says that something is missing.
    pub lacks: bool,
}

/// Returns whether some line has no record.
fn has_missing(sessions: &[Session<'_>]) -> bool
    ensures { result ≡ has_missing (map session_value sessions.now) }
{
    for session in sessions {
        if session.missing > 0 {
            return true;
        }
    }
    false
}

/// Returns whether it isn't seen in all folders what lines only read.
fn is_unseen(host: &Host<'_>) -> bool
    ensures { result ≡ is_unseen (host_view host.now).unseen }
{
    match &host.unseen {
        Some(unseen) => !unseen.is_empty(),
        None => true,
    }
}

/// Appends which logins weren't recorded, if some are given, and returns whether that says that
/// something is missing.
fn push_logins(
    alloc: Global,
    rows: &mut Vec<SafeLine>,
    sessions: &[Session<'_>],
    host: &Host<'_>,
) -> Result<bool, NoMem>
    ensures rows { OnOk result (rows.new.items ≡ rows.old.items
        ++ login_rows (map session_value sessions.now) (host_view host.now).logins) }
    ensures lacks { IfOk result (λ lacks.
        lacks ≡ lacks_logins (map session_value sessions.now) (host_view host.now).logins) }
{
    let Some(logins) = &host.logins else {
        return Ok(false);
    };
    let unrecorded = unrecorded(alloc, sessions, logins.as_slice())?;
    rows.push(logins_row(alloc, logins.as_slice(), unrecorded.as_slice())?)?;
    Ok(logins.is_empty() || !unrecorded.is_empty())
}

/// Returns the rows before that of logins.
fn rows_of(alloc: Global, told: &ToldCase<'_>, host: &Host<'_>) -> Result<Vec<SafeLine>, NoMem>
    ensures { IfOk result (λ rows. HasRows (map session_value told.now.typed.sessions.items)
        (map line_value told.now.typed.lines.items) told.now.told.lines (host_view host.now)
        rows.items) }
{
    let sessions = told.typed.sessions.as_slice();
    let lines = told.typed.lines.as_slice();
    let counts = counts_of(told.told.lines(), lines);
    let mut rows = Vec::with_capacity(alloc, 10)?;
    rows.push(recorded_row(alloc, lines)?)?;
    rows.push(folders_row(alloc, host.folders)?)?;
    rows.push(sessions_row(alloc, sessions)?)?;
    rows.push(lines_row(alloc, counts)?)?;
    rows.push(overlaps_row(alloc, counts)?)?;
    rows.push(outside_row(alloc, counts)?)?;
    rows.push(missing_row(alloc, sessions)?)?;
    rows.push(reads_row(alloc, host.unseen.as_ref())?)?;
    Ok(rows)
}

/// Returns what a case has, by its lines as they were told.
fn status_of(
    alloc: Global,
    told: &ToldCase<'_>,
    size: usize,
    host: &Host<'_>,
) -> Result<Status, NoMem>
    ensures { IfOk result (λ status. IsStatusBy (map session_value told.now.typed.sessions.items)
        (map line_value told.now.typed.lines.items) told.now.told.lines size (host_view host.now)
        status) }
{
    let sessions = told.typed.sessions.as_slice();
    let mut rows = rows_of(alloc, told, host)?;
    let lacks_logins = push_logins(alloc, &mut rows, sessions, host)?;
    rows.push(case_row(alloc, size)?)?;
    Ok(Status {
        rows,
        lacks: has_missing(sessions) || is_unseen(host) || lacks_logins,
    })
}

/// Returns what a case has, beside what its machine says of itself. `text` is its document.
///
/// # Errors
///
/// Returns `Case` if the text isn't a case, or why its lines can't be told.
pub fn spool_status(alloc: Global, text: &[u8], host: &Host<'_>) -> Result<Status, RecordingFault>
    ensures ok { IfOk result (IsStatusIn text.now (host_view host.now)) }
    ensures err { IfErr result (HasNoStatus text.now) }
{
    let case = read_case(alloc, text)?;
    let told = told_case(alloc, &case)?;
    Ok(status_of(alloc, &told, text.len(), host)?)
}
