//! The paths in which two trees differ.
use crate::words::push_item;
use casebook_changes::{ChangedPath, PathChange, changed_paths};
use retro_rows::{fail, path, path_text, text};
use retro_tree::{Bytes, NoMem, Node, State};
use std::alloc::Global;
use std::test::Fail;

/// Returns a node: `dir`, or the bytes of a file.
fn node(alloc: Global, what: &str) -> Result<Node, NoMem> {
    match what {
        "dir" => Ok(Node::Dir),
        bytes => Ok(Node::File(Bytes::of(Vec::from_slice(alloc, bytes.as_bytes())?))),
    }
}

/// Places a node at a path.
fn place(alloc: Global, state: &mut State, at: &str, what: &str) -> Result<(), Fail> {
    state.place(path(alloc, at)?, node(alloc, what)?)?;
    Ok(())
}

/// Returns a state with these nodes below the root.
fn state(alloc: Global, nodes: &str) -> Result<State, Fail> {
    let mut state = State::empty(alloc)?;
    for node in nodes.split(", ") {
        match node.split_once(' ') {
            Some((at, what)) => place(alloc, &mut state, at, what)?,
            None => return fail("a node has a path and bytes"),
        }
    }
    Ok(state)
}

/// Returns the sign of a path: added, removed or modified.
fn sign(change: PathChange) -> &'static str {
    match change {
        PathChange::Added => "+",
        PathChange::Removed => "-",
        PathChange::Modified => "~",
    }
}

/// Returns paths with their signs, or `none`.
fn signed(alloc: Global, changed: &[ChangedPath]) -> Result<String, NoMem> {
    if changed.is_empty() {
        return text(alloc, "none");
    }
    let mut out = String::new(alloc);
    for at in changed {
        push_item(&mut out, " ", sign(at.change))?;
        out.push_str(path_text(alloc, at.path.names())?.as_str())?;
    }
    Ok(out)
}

/// Returns the paths in which two states differ.
fn changed_between(alloc: Global, before: &State, after: &State) -> Result<String, NoMem> {
    let changed = changed_paths(alloc, before.tree(), after.tree())?;
    signed(alloc, changed.as_slice())
}

/// Returns the paths in which the trees with these nodes differ.
pub fn changed(alloc: Global, before: &str, after: &str) -> Result<String, Fail> {
    let (before, after) = (state(alloc, before)?, state(alloc, after)?);
    Ok(changed_between(alloc, &before, &after)?)
}
