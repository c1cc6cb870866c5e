//! The calls of rows.
use casebook_patch::{file_changes, patch_of, unmade_directories, unremoved_directories};
use retro_path::Path;
use retro_rows::{fail, path, path_text, text};
use retro_tree::{Bytes, NoMem, Node, State};
use std::alloc::Global;
use std::test::Fail;

/// Returns a node: `dir`, or the bytes of a file.
fn node(alloc: Global, what: &str) -> Result<Node, NoMem> {
    match what {
        "dir" => Ok(Node::Dir),
        bytes => Ok(Node::File(Bytes::of(Vec::from_slice(alloc, bytes.as_bytes())?))),
    }
}

/// Returns a state with these nodes below the root.
fn state(alloc: Global, nodes: &str) -> Result<State, Fail> {
    let mut state = State::empty(alloc)?;
    for text in nodes.split("; ") {
        match text.split_once(" = ") {
            Some((at, what)) => state.place(path(alloc, at)?, node(alloc, what)?)?,
            None if text.is_empty() => (),
            None => return fail("a node has a path and bytes"),
        }
    }
    Ok(state)
}

/// Returns the patch between the trees with these nodes.
pub fn patch(alloc: Global, before: &str, after: &str) -> Result<String, Fail> {
    let (before, after) = (state(alloc, before)?, state(alloc, after)?);
    let changes = file_changes(alloc, before.tree(), after.tree())?;
    Ok(String::from_utf8(patch_of(alloc, changes.as_slice())?)?)
}

/// Returns paths with commas between them, or `none`.
fn path_list(alloc: Global, paths: &[Path]) -> Result<String, NoMem> {
    if paths.is_empty() {
        return text(alloc, "none");
    }
    let mut out = String::new(alloc);
    for path in paths {
        if !out.is_empty() {
            out.push_str(", ")?;
        }
        out.push_str(path_text(alloc, path.names())?.as_str())?;
    }
    Ok(out)
}

/// Returns the directories that a patch between the trees with these nodes doesn't make.
pub fn unmade(alloc: Global, before: &str, after: &str) -> Result<String, Fail> {
    let (before, after) = (state(alloc, before)?, state(alloc, after)?);
    let paths = unmade_directories(alloc, before.tree(), after.tree())?;
    Ok(path_list(alloc, paths.as_slice())?)
}

/// Returns the directories that a patch between the trees with these nodes doesn't remove.
pub fn unremoved(alloc: Global, before: &str, after: &str) -> Result<String, Fail> {
    let (before, after) = (state(alloc, before)?, state(alloc, after)?);
    let paths = unremoved_directories(alloc, before.tree(), after.tree())?;
    Ok(path_list(alloc, paths.as_slice())?)
}
