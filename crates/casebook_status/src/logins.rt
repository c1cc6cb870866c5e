//! Logins that aren't recorded.
ghost use Rattle.std.specs.Prelude.{◌≡◌, ◌++◌, IfOk, codes, map};
ghost use Rattle.std.specs.List.{filter, list_any};
ghost use Rattle.retro_path.specs.Order.{text_eq};
ghost use Rattle.casebook_host.specs.LoginViews.{login_value};
ghost use Rattle.casebook_typed.specs.Values.{session_value};
ghost use Rattle.casebook_status.specs.Logins.{is_of, is_recorded, terminal_named, unrecorded};

use crate::NoMem;
use casebook_host::Login;
use casebook_typed::Session;
use std::alloc::Global;

/// What the names of terminals begin with, and lists of logins leave out.
const DEVICES: &str = "/dev/";

/// Returns whether a terminal is the one to which a list of logins gives a name.
fn is_terminal(terminal: &[u8], name: &[u8]) -> bool
    ensures { result ≡ text_eq terminal.now (terminal_named name.now) }
{
    match terminal.strip_prefix(DEVICES.as_bytes()) {
        Some(rest) => rest == name,
        None => false,
    }
}

/// Returns whether a session is one of a login.
fn is_of(session: &Session<'_>, login: &Login<'_>) -> bool
    ensures { result ≡ is_of (login_value login.now) (session_value session.now) }
{
    match session.start {
        Some(start) => {
            start.login.as_slice() == login.name
                && is_terminal(start.terminal.as_slice(), login.terminal)
        }
        None => false,
    }
}

/// Returns whether a session of a login was recorded.
fn is_recorded(sessions: &[Session<'_>], login: &Login<'_>) -> bool
    ensures { result ≡ is_recorded (map session_value sessions.now) (login_value login.now) }
{
    for session in sessions {
        if is_of(session, login) {
            return true;
        }
    }
    false
}

/// Returns the logins of which no session was recorded.
pub(crate) fn unrecorded<'a>(
    alloc: Global,
    sessions: &[Session<'_>],
    logins: &[Login<'a>],
) -> Result<Vec<Login<'a>>, NoMem>
    ensures { IfOk result (λ found. map login_value found.items
        ≡ unrecorded (map session_value sessions.now) (map login_value logins.now)) }
{
    let mut found = Vec::new(alloc);
    for login in logins {
        if !is_recorded(sessions, login) {
            found.push(*login)?;
        }
    }
    Ok(found)
}
