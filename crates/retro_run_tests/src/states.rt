//! States written as words, and the comparison of two states.
//!
//! `/d/` is a directory, `/f=TEXT` a file, `@/d` the session's directory, `?N` its status, and
//! `NAME=TEXT` a variable. In a TEXT `_` is a space. `/f*N` and `NAME*N` have N letters `n`. A
//! first word `base` is short for directories `/etc`, `/h` and `/tmp`, a password file, and a
//! session in `/h`, its HOME.
use retro_rows::{fail, path};
use retro_tree::{
    Bytes, Change, Entry, NoMem, Node, Path, Resolved, Session, State, Text, Tree, VarName, resolve,
};
use std::alloc::Global;
use std::test::Fail;

/// What `base` is short for.
const BASE: &str = concat!(
    "/etc/ /h/ /tmp/ @/h HOME=/h ?0 /etc/passwd=root:x:0:0:r:/:/bin/sh\n",
    "alice:x:100:100:a:/h:/bin/sh\nmallory:x:200:200:m:/tmp:/bin/sh\n",
);

/// Returns the bytes of a text.
pub fn bytes(alloc: Global, given: &str) -> Result<Bytes, NoMem> {
    Ok(Bytes::of(Vec::from_slice(alloc, given.as_bytes())?))
}

/// Returns a text of so many letters `n`.
fn letters(alloc: Global, count: u32) -> Result<String, NoMem> {
    let mut out = String::new(alloc);
    for _ in 0..count {
        out.push('n')?;
    }
    Ok(out)
}

/// Returns the change that sets a variable.
fn variable(alloc: Global, name: &str, value: String) -> Result<Change, Fail> {
    match VarName::of(alloc, name)? {
        Some(name) => Ok(Change::SetVar(1, name, Text::of(value))),
        None => fail("no variable"),
    }
}

/// Returns the change that sets a file or a variable.
fn content(alloc: Global, at: &str, value: String) -> Result<Change, Fail> {
    if !at.starts_with("/") {
        return variable(alloc, at, value);
    }
    let content = Bytes::of(value.into_bytes());
    Ok(Change::Put(path(alloc, at)?, Node::File(content)))
}

/// Returns the change that makes a directory, or sets a file or a variable to so many letters.
fn counted(alloc: Global, word: &str) -> Result<Change, Fail> {
    match word.split_once("*") {
        None => Ok(Change::Put(path(alloc, word)?, Node::Dir)),
        Some((at, count)) => content(alloc, at, letters(alloc, count.parse()?)?),
    }
}

/// Returns the change that makes a file, a variable or a directory.
fn entry(alloc: Global, word: &str) -> Result<Change, Fail> {
    match word.split_once("=") {
        None => counted(alloc, word),
        Some((at, value)) => content(alloc, at, value.replace(alloc, '_', " ")?),
    }
}

/// Returns the change that a word says.
fn change(alloc: Global, word: &str) -> Result<Change, Fail> {
    if let Some(cwd) = word.strip_prefix("@") {
        return Ok(Change::SetCwd(1, path(alloc, cwd)?));
    }
    match word.strip_prefix("?") {
        Some(status) => Ok(Change::SetStatus(1, status.parse()?)),
        None => entry(alloc, word),
    }
}

/// Appends the changes that words say.
fn push_changes(alloc: Global, words: &str, changes: &mut Vec<Change>) -> Result<(), Fail> {
    for word in words.split(" ") {
        if !word.is_empty() {
            changes.push(change(alloc, word)?)?;
        }
    }
    Ok(())
}

/// Returns the changes that words say.
pub fn changes(alloc: Global, words: &str) -> Result<Vec<Change>, Fail> {
    let mut changes = Vec::new(alloc);
    match words.strip_prefix("base") {
        Some(more) => {
            push_changes(alloc, BASE, &mut changes)?;
            push_changes(alloc, more, &mut changes)?;
        }
        None => push_changes(alloc, words, &mut changes)?,
    }
    Ok(changes)
}

/// Makes changes to a state.
fn apply_all(alloc: Global, state: &mut State, changes: &[Change]) -> Result<(), NoMem> {
    for change in changes {
        state.apply(alloc, change)?;
    }
    Ok(())
}

/// Returns the state that words say.
pub fn state_of(alloc: Global, words: &str) -> Result<State, Fail> {
    let changes = changes(alloc, words)?;
    let mut state = State::empty(alloc)?;
    apply_all(alloc, &mut state, &changes)?;
    Ok(state)
}

/// Returns whether two entries are the same.
fn same_entry(one: &Entry, other: &Entry) -> bool {
    match (one, other) {
        (Entry::Dir, Entry::Dir) => true,
        (Entry::File(one), Entry::File(other)) => one == other,
        _ => false,
    }
}

/// Returns whether two trees have the same entries.
fn same_tree(one: &Tree, other: &Tree) -> bool {
    let mut rest = other.iter();
    for (path, entry) in one.iter() {
        match rest.next() {
            Some((at, other)) if path == at && same_entry(entry, other) => {}
            _ => return false,
        }
    }
    rest.next().is_none()
}

/// Returns whether two sessions have the same directory, status and variables.
fn same_session(one: &Session, other: &Session) -> bool {
    let mut rest = other.vars.iter();
    for (name, value) in one.vars.iter() {
        match rest.next() {
            Some((set, other)) if name == set && value == other => {}
            _ => return false,
        }
    }
    rest.next().is_none() && one.cwd == other.cwd && one.status == other.status
}

/// Returns whether two states are the same.
pub fn same_state(one: &State, other: &State) -> bool {
    let mut rest = other.sessions().iter();
    for (sid, session) in one.sessions().iter() {
        match rest.next() {
            Some((number, other)) if *sid == *number && same_session(session, other) => {}
            _ => return false,
        }
    }
    rest.next().is_none() && same_tree(one.tree(), other.tree())
}
