//! What is listed in rows.
ghost use Rattle.std.specs.Prelude.{◌≡◌, ◌++◌, IfOk, OnOk, map};
ghost use Rattle.casebook_host.specs.LoginViews.{login_value};
ghost use Rattle.casebook_typed.specs.Values.{session_value};
ghost use Rattle.casebook_words.specs.Words.{path_words};
ghost use Rattle.casebook_status.specs.Rows.{listed, login_words, missing_pieces, missing_words};
ghost use Rattle.casebook_status.specs.Rows.{people_pieces, person_words};

use crate::NoMem;
use crate::people::{names_of, sessions_of};
use casebook_host::Login;
use casebook_text::SafeLine;
use casebook_typed::Session;
use casebook_words::push_path;
use retro_path::Path;
use std::alloc::Global;

/// Appends pieces, with a comma between two.
pub(crate) fn push_listed(line: &mut SafeLine, pieces: &[SafeLine]) -> Result<(), NoMem>
    ensures { OnOk result (line.new ≡ line.old ++ listed pieces.now) }
{
    let Some((first, rest)) = pieces.split_first() else {
        return Ok(());
    };
    line.push_line(first)?;
    for piece in rest {
        line.push_ascii(", ")?;
        line.push_line(piece)?;
    }
    Ok(())
}

/// Returns a path in words.
fn path_line(alloc: Global, path: &Path) -> Result<SafeLine, NoMem>
    ensures { IfOk result (λ line. line ≡ path_words path.now) }
{
    let mut line = SafeLine::new(alloc);
    push_path(alloc, &mut line, path)?;
    Ok(line)
}

/// Returns folders in words.
pub(crate) fn folder_pieces(alloc: Global, folders: &[Path]) -> Result<Vec<SafeLine>, NoMem>
    ensures { IfOk result (λ pieces. pieces.items ≡ map path_words folders.now) }
{
    let mut pieces = Vec::with_capacity(alloc, folders.len())?;
    for folder in folders {
        pieces.push(path_line(alloc, folder)?)?;
    }
    Ok(pieces)
}

/// Returns paths in words.
pub(crate) fn path_pieces(alloc: Global, paths: &[&Path]) -> Result<Vec<SafeLine>, NoMem>
    ensures { IfOk result (λ pieces. pieces.items ≡ map path_words (map (λ p. p.now) paths.now)) }
{
    let mut pieces = Vec::with_capacity(alloc, paths.len())?;
    for path in paths {
        pieces.push(path_line(alloc, path)?)?;
    }
    Ok(pieces)
}

/// Returns a name, and how many sessions are of the user with it.
fn person_line(alloc: Global, sessions: &[Session<'_>], name: &[u8]) -> Result<SafeLine, NoMem>
    ensures { IfOk result (λ line. line ≡ person_words (map session_value sessions.now) name.now) }
{
    let mut line = SafeLine::new(alloc);
    line.push_word(alloc, name)?;
    line.push_ascii(" ")?;
    line.push_number(alloc, sessions_of(sessions, name) as u64)?;
    Ok(line)
}

/// Returns the users of sessions, each with the number of these sessions.
pub(crate) fn people_pieces(alloc: Global, sessions: &[Session<'_>]) -> Result<Vec<SafeLine>, NoMem>
    ensures { IfOk result (λ pieces.
        pieces.items ≡ people_pieces (map session_value sessions.now)) }
{
    let names = names_of(alloc, sessions)?;
    let mut pieces = Vec::with_capacity(alloc, names.len())?;
    for name in names.as_slice() {
        pieces.push(person_line(alloc, sessions, name)?)?;
    }
    Ok(pieces)
}

/// Returns how many lines of a session have no record.
fn missing_line(alloc: Global, number: usize, missing: usize) -> Result<SafeLine, NoMem>
    ensures { IfOk result (λ line. line ≡ missing_words number missing) }
{
    let mut line = SafeLine::new(alloc);
    line.push_number(alloc, missing as u64)?;
    line.push_ascii(" of session ")?;
    line.push_number(alloc, number as u64)?;
    Ok(line)
}

/// Returns how many lines of sessions have no record, where there are some.
pub(crate) fn missing_pieces(
    alloc: Global,
    sessions: &[Session<'_>],
) -> Result<Vec<SafeLine>, NoMem>
    ensures { IfOk result (λ pieces.
        pieces.items ≡ missing_pieces 1 (map session_value sessions.now)) }
{
    let mut pieces = Vec::new(alloc);
    for (index, session) in sessions.iter().enumerate() {
        if session.missing > 0 {
            pieces.push(missing_line(alloc, index + 1, session.missing)?)?;
        }
    }
    Ok(pieces)
}

/// Returns a login in words.
fn login_line(alloc: Global, login: &Login<'_>) -> Result<SafeLine, NoMem>
    ensures { IfOk result (λ line. line ≡ login_words (login_value login.now)) }
{
    let mut line = SafeLine::new(alloc);
    line.push_word(alloc, login.name)?;
    line.push_ascii(" ")?;
    line.push_word(alloc, login.terminal)?;
    Ok(line)
}

/// Returns logins in words.
pub(crate) fn login_pieces(alloc: Global, logins: &[Login<'_>]) -> Result<Vec<SafeLine>, NoMem>
    ensures { IfOk result (λ pieces.
        pieces.items ≡ map login_words (map login_value logins.now)) }
{
    let mut pieces = Vec::with_capacity(alloc, logins.len())?;
    for login in logins {
        pieces.push(login_line(alloc, login)?)?;
    }
    Ok(pieces)
}
