//! Whose sessions were recorded.
ghost use Rattle.std.specs.Prelude.{◌≡◌, IfOk, OnOk, count_by, map};
ghost use Rattle.std.specs.List.{list_any};
ghost use Rattle.retro_path.specs.Order.{text_eq};
ghost use Rattle.casebook_typed.specs.Values.{session_value};
ghost use Rattle.casebook_status.specs.People.{login_of, names_of, sessions_of, with_name};

use crate::NoMem;
use casebook_typed::Session;
use std::alloc::Global;

/// Returns the login name of a session's user. It is empty if that isn't known.
pub(crate) fn login_of<'a>(session: &Session<'a>) -> &'a [u8]
    ensures { result.now ≡ login_of (session_value session.now) }
{
    match session.start {
        Some(start) => start.login.as_slice(),
        None => &[],
    }
}

/// Returns whether a name is among others.
fn is_among(names: &[&[u8]], name: &[u8]) -> bool
    ensures { result ≡ list_any (λ other. text_eq other name.now) (map (λ n. n.now) names.now) }
{
    for other in names {
        if *other == name {
            return true;
        }
    }
    false
}

/// Appends a name, unless it is unknown or among the others.
fn push_name<'a>(names: &mut Vec<&'a [u8]>, name: &'a [u8]) -> Result<(), NoMem>
    ensures { OnOk result (map (λ n. n.now) names.new.items
        ≡ with_name (map (λ n. n.now) names.old.items) name.now) }
{
    if name.is_empty() || is_among(names.as_slice(), name) {
        return Ok(());
    }
    names.push(name)?;
    Ok(())
}

/// Returns the login names of sessions, each once, in the order in which they appear first.
pub(crate) fn names_of<'a>(alloc: Global, sessions: &[Session<'a>]) -> Result<Vec<&'a [u8]>, NoMem>
    ensures { IfOk result (λ names.
        map (λ n. n.now) names.items ≡ names_of (map session_value sessions.now)) }
{
    let mut names = Vec::new(alloc);
    for session in sessions {
        push_name(&mut names, login_of(session))?;
    }
    Ok(names)
}

/// Returns how many sessions are of the user with a login name.
pub(crate) fn sessions_of(sessions: &[Session<'_>], name: &[u8]) -> usize
    ensures { result ≡ sessions_of (map session_value sessions.now) name.now }
{
    sessions
        .iter()
        .filter(|session| login_of(session) == name)
        .count()
}
