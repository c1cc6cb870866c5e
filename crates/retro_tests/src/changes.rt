//! Changes as text, and states after them.
//!
//! Changes are separated by `; `: `put PATH dir`, `put PATH missing`, `put PATH file TEXT`,
//! `grow PATH by TEXT`, `var SID NAME TEXT`, `cwd SID PATH`, `status SID NUMBER`.
use retro_rows::{fail, path, text};
use retro_tree::{Bytes, Change, NoMem, Node, State, Text, VarName};
use std::alloc::Global;
use std::test::Fail;

/// Returns the variable that a text names. Fails if it names none.
pub fn variable(alloc: Global, given: &str) -> Result<VarName, Fail> {
    match VarName::of(alloc, given)? {
        Some(name) => Ok(name),
        None => fail("no variable"),
    }
}

/// Returns the bytes of a text.
fn bytes(alloc: Global, given: &str) -> Result<Bytes, NoMem> {
    Ok(Bytes::of(Vec::from_slice(alloc, given.as_bytes())?))
}

/// Returns the node that a text says: `dir`, `missing`, or `file` and its content.
fn node(alloc: Global, given: &str) -> Result<Node, Fail> {
    match given {
        "dir" => Ok(Node::Dir),
        "missing" => Ok(Node::Missing),
        _ => match given.strip_prefix("file ") {
            Some(content) => Ok(Node::File(bytes(alloc, content)?)),
            None => fail("no such node"),
        },
    }
}

/// Returns the change that appends to a file. The text is `by` and what is appended.
fn growth(alloc: Global, place: &str, given: &str) -> Result<Change, Fail> {
    let Some(more) = given.strip_prefix("by ") else {
        return fail("no such growth");
    };
    let more = bytes(alloc, more)?;
    Ok(Change::Grow(path(alloc, place)?, more))
}

/// Returns the change of a session's variable.
fn variable_change(alloc: Global, sid: u32, given: &str) -> Result<Change, Fail> {
    let Some((name, value)) = given.split_once(' ') else {
        return fail("no value");
    };
    let name = variable(alloc, name)?;
    Ok(Change::SetVar(sid, name, Text::of(text(alloc, value)?)))
}

/// Returns the change of the node at a path.
fn put(alloc: Global, place: &str, value: &str) -> Result<Change, Fail> {
    let node = node(alloc, value)?;
    Ok(Change::Put(path(alloc, place)?, node))
}

/// Returns the change of a session's directory, status or variable.
fn session_change(alloc: Global, kind: &str, sid: u32, value: &str) -> Result<Change, Fail> {
    match kind {
        "var" => variable_change(alloc, sid, value),
        "cwd" => Ok(Change::SetCwd(sid, path(alloc, value)?)),
        "status" => Ok(Change::SetStatus(sid, value.parse()?)),
        _ => fail("no such change"),
    }
}

/// Returns the change of a kind, at a path or in a session, to a value.
fn change_of(alloc: Global, kind: &str, place: &str, value: &str) -> Result<Change, Fail> {
    match kind {
        "put" => put(alloc, place, value),
        "grow" => growth(alloc, place, value),
        _ => session_change(alloc, kind, place.parse()?, value),
    }
}

/// Returns the change that a text says.
pub fn change(alloc: Global, given: &str) -> Result<Change, Fail> {
    let Some((kind, rest)) = given.split_once(' ') else {
        return fail("no change");
    };
    match rest.split_once(' ') {
        Some((place, value)) => change_of(alloc, kind, place, value),
        None => fail("no value"),
    }
}

/// Returns the changes that a text says.
fn changes(alloc: Global, given: &str) -> Result<Vec<Change>, Fail> {
    let mut changes = Vec::new(alloc);
    for each in given.split("; ") {
        if !each.is_empty() {
            changes.push(change(alloc, each)?)?;
        }
    }
    Ok(changes)
}

/// Makes a copy of a change to a state.
fn apply_copy(alloc: Global, state: &mut State, change: &Change) -> Result<(), NoMem> {
    let copy = change.copy()?;
    state.apply(alloc, &copy)
}

/// Makes copies of changes to a state.
fn apply_all(alloc: Global, state: &mut State, changes: &[Change]) -> Result<(), NoMem> {
    for change in changes {
        apply_copy(alloc, state, change)?;
    }
    Ok(())
}

/// Returns a state after changes.
pub fn after(alloc: Global, mut state: State, given: &str) -> Result<State, Fail> {
    let changes = changes(alloc, given)?;
    apply_all(alloc, &mut state, &changes)?;
    Ok(state)
}

/// Returns the state that has only a root after changes.
pub fn changed(alloc: Global, given: &str) -> Result<State, Fail> {
    let root = State::empty(alloc)?;
    after(alloc, root.copy()?, given)
}
