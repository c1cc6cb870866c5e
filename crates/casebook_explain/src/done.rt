//! What a line did at each path that it changed.
ghost use Rattle.std.specs.Prelude.{◌≡◌, IfOk};
ghost use Rattle.retro_tree.specs.Tree.{node_in};
ghost use Rattle.casebook_explain.specs.Done.{done_at, done_by, grew};

use crate::NoMem;
use casebook_needs::Effect as Done;
use casebook_stand_in::Effect;
use retro_tree::{Cell, Node, OverlayEntry, Path, State, Value};
use std::alloc::Global;

/// Returns whether a file grew that was at a path, if this node is there now.
fn grew(state: &State, path: &Path, node: &Node) -> bool
    ensures { result ≡ grew (node_in path.now state.now.tree) node.now }
{
    let (Some(old), Node::File(new)) = (state.file(path), node) else {
        return false;
    };
    !old.is_empty() && old.len() < new.len() && new.as_slice().starts_with(old.as_slice())
}

/// Returns what a line did that left a node at a path.
fn done_at(state: &State, path: &Path, node: &Node) -> Result<Done, NoMem>
    ensures { IfOk result (λ done. done ≡ done_at state.now path.now node.now) }
{
    let has_grown = grew(state, path, node);
    let path = path.copy()?;
    Ok(if has_grown {
        Done::Append(path)
    } else {
        Done::Other(path)
    })
}

/// Returns what a line did at all paths that it changed, by the state before it.
#[tactic(auto, unfolding(crate::specs::Done::done_by))]
pub(crate) fn done_by(alloc: Global, state: &State, effect: &Effect) -> Result<Vec<Done>, NoMem>
    ensures { IfOk result (λ done. done.items ≡ done_by effect.now state.now) }
{
    let mut done = Vec::new(alloc);
    for (cell, entry) in effect.cells().iter() {
        if let (Cell::At(path), OverlayEntry::Value(Value::Node(node))) = (cell, entry) {
            done.push(done_at(state, path, node)?)?;
        }
    }
    Ok(done)
}
