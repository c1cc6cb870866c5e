//! Queries of a view, by what their answers say.
ghost use Rattle.std.specs.Prelude.{◌≡◌, IfOk};
ghost use Rattle.retro_tree.specs.Node.{kind_of};
ghost use Rattle.retro_tree.specs.Tree.{node_in};
ghost use Rattle.casebook_needs.specs.Needs.{home_in, is_directory, is_file};

use crate::NoMem;
use retro_path::{Path, Text, VarName};
use retro_tree::{Answer, Ask, Kind, Node, View};
use std::alloc::Global;

/// Returns the node at a path.
#[tactic(auto, unfolding(retro_tree::specs::Ask::answer))]
pub(crate) fn node_at<V: View>(alloc: Global, view: &V, path: &Path) -> Result<Node, NoMem>
    ensures { IfOk result (λ node. node ≡ node_in path.now (V.state view.now).tree) }
{
    match view.answer(alloc, &Ask::Bytes(path.copy()?))? {
        Answer::Bytes(node) => Ok(node),
        _ => unreachable!(),
    }
}

/// Returns the kind of the node at a path.
#[tactic(auto, unfolding(retro_tree::specs::Ask::answer))]
fn kind_at<V: View>(alloc: Global, view: &V, path: &Path) -> Result<Kind, NoMem>
    ensures { IfOk result (λ kind. kind ≡ kind_of (node_in path.now (V.state view.now).tree)) }
{
    match view.answer(alloc, &Ask::Kind(path.copy()?))? {
        Answer::Kind(kind) => Ok(kind),
        _ => unreachable!(),
    }
}

/// Returns whether a path is a directory.
pub(crate) fn is_directory<V: View>(alloc: Global, view: &V, path: &Path) -> Result<bool, NoMem>
    ensures { IfOk result (λ is. is ≡ is_directory (V.state view.now) path.now) }
{
    Ok(kind_at(alloc, view, path)? == Kind::Dir)
}

/// Returns whether a file is at a path.
pub(crate) fn is_file<V: View>(alloc: Global, view: &V, path: &Path) -> Result<bool, NoMem>
    ensures { IfOk result (λ is. is ≡ is_file (V.state view.now) path.now) }
{
    Ok(kind_at(alloc, view, path)? == Kind::File)
}

/// Returns the value of `HOME` in a session, or `None` if it isn't set.
#[tactic(auto, unfolding(crate::specs::Needs::home_in, retro_tree::specs::Ask::answer))]
pub(crate) fn home_in<V: View>(alloc: Global, view: &V, session: u32) -> Result<Option<Text>, NoMem>
    ensures { IfOk result (λ home. home ≡ home_in session (V.state view.now)) }
{
    match view.answer(alloc, &Ask::VarOf(session, VarName::home(alloc)?))? {
        Answer::Var(value) => Ok(value),
        _ => unreachable!(),
    }
}
