//! What only a recording has, and no machine: what is at `/.casebook` and below it.
ghost use Rattle.std.specs.Prelude.{◌≡◌, IfOk};
ghost use Rattle.casebook_explain.specs.Places.{is_ours};
ghost use Rattle.casebook_account.specs.Ours.{is_our_ask, is_our_change, is_our_note, our_paths};
ghost use Rattle.casebook_account.specs.Ours.{without_ours};

use crate::NoMem;
use retro_tree::{Ask, Change, Node, Note, Path, State, Tree};
use std::alloc::Global;

/// The name of the directory that is ours, in the root.
const OURS: &str = ".casebook";

/// Returns whether a path is `/.casebook` or below it.
#[tactic(auto, unfolding(casebook_explain::specs::Places::casebook))]
fn is_ours(path: &Path) -> bool
    ensures { result ≡ is_ours path.now }
{
    match path.names().next() {
        Some(name) => name == OURS,
        None => false,
    }
}

/// Returns whether a query is about a path of ours.
fn is_our_ask(ask: &Ask) -> bool
    ensures { result ≡ is_our_ask ask.now }
{
    match ask {
        Ask::Kind(path) | Ask::Bytes(path) | Ask::Names(path) | Ask::CanWrite(path, _) => {
            is_ours(path)
        }
        Ask::User(_) | Ask::VarOf(_, _) | Ask::CwdOf(_) | Ask::StatusOf(_) => false,
    }
}

/// Returns whether a change writes to a path of ours.
fn is_our_change(change: &Change) -> bool
    ensures { result ≡ is_our_change change.now }
{
    match change {
        Change::Put(path, _) | Change::Grow(path, _) => is_ours(path),
        Change::SetVar(_, _, _) | Change::SetCwd(_, _) | Change::SetStatus(_, _) => false,
    }
}

/// Returns whether a note is about a path of ours.
pub(crate) fn is_our_note(note: &Note) -> bool
    ensures { result ≡ is_our_note note.now }
{
    match note {
        Note::Asked(ask, _) => is_our_ask(ask),
        Note::Made(change) => is_our_change(change),
    }
}

/// Returns the paths of ours in a tree.
fn our_paths(alloc: Global, tree: &Tree) -> Result<Vec<Path>, NoMem>
    ensures { IfOk result (λ paths. paths.items ≡ our_paths tree.now) }
{
    let mut paths = Vec::new(alloc);
    for (path, _) in tree.iter() {
        if is_ours(path) {
            paths.push(path.copy()?)?;
        }
    }
    Ok(paths)
}

/// Returns a copy of a state without the paths of ours.
#[tactic(auto, unfolding(crate::specs::Ours::without_ours))]
pub(crate) fn without_ours(alloc: Global, state: &State) -> Result<State, NoMem>
    ensures { IfOk result (λ bare. bare ≡ without_ours state.now) }
{
    let mut bare = state.copy()?;
    for path in our_paths(alloc, state.tree())? {
        bare.place(path, Node::Missing)?;
    }
    Ok(bare)
}
