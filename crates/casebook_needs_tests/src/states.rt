//! States, read from texts.
//!
//! A text has entries that `, ` separates: `/d/` is a directory, `/f=TEXT` a file, `@/d` the
//! session's directory, `?N` its status, and `NAME=TEXT` a variable. The session is number 7. A
//! directory is there only if an entry says so, but for the root. The text `none` has no entries.
use retro_path::{Bytes, Path, Text, VarName};
use retro_rows::{fail, path};
use retro_tree::{Node, State};
use std::alloc::Global;
use std::collections::BTreeMap;
use std::test::Fail;

/// The number of the session.
pub const SESSION: u32 = 7;

/// The session of a text.
#[derive(Drop)]
struct Session {
    cwd: Path,
    status: u8,
    vars: BTreeMap<VarName, Text>,
}

/// Puts a file, or sets a variable.
fn set(
    alloc: Global,
    state: &mut State,
    session: &mut Session,
    at: &str,
    value: &str,
) -> Result<(), Fail> {
    let value = String::from_str(alloc, value)?;
    if at.starts_with("/") {
        state.place(path(alloc, at)?, Node::File(Bytes::of(value.into_bytes())))?;
        return Ok(());
    }
    match VarName::of(alloc, at)? {
        Some(name) => {
            session.vars.insert(name, Text::of(value))?;
            Ok(())
        }
        None => fail("no variable"),
    }
}

/// Does what an entry says.
fn enter(alloc: Global, state: &mut State, session: &mut Session, entry: &str) -> Result<(), Fail> {
    if let Some(cwd) = entry.strip_prefix("@") {
        session.cwd = path(alloc, cwd)?;
        return Ok(());
    }
    if let Some(status) = entry.strip_prefix("?") {
        session.status = status.parse()?;
        return Ok(());
    }
    match entry.split_once("=") {
        Some((at, value)) => set(alloc, state, session, at, value),
        None => {
            state.place(path(alloc, entry)?, Node::Dir)?;
            Ok(())
        }
    }
}

/// Returns the state of a text, and the directory of its session.
pub fn state(alloc: Global, text: &str) -> Result<(State, Path), Fail> {
    let mut state = State::empty(alloc)?;
    let mut session = Session {
        cwd: Path::root(alloc),
        status: 0,
        vars: BTreeMap::new(alloc),
    };
    if text != "none" {
        for entry in text.split(", ") {
            enter(alloc, &mut state, &mut session, entry)?;
        }
    }
    let Session { cwd, status, vars } = session;
    state.add_session(SESSION, cwd.copy()?, status, vars)?;
    Ok((state, cwd))
}
