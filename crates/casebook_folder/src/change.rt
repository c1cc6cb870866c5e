//! Changes that plans make.
ghost use Rattle.std.specs.Prelude.{◌≡◌, IfOk};
ghost use Rattle.casebook_folder.specs.Changes as Changes;
ghost use Rattle.casebook_folder.specs.Found.{found_eq};

use crate::NoMem;
use crate::attributes::Attributes;
use crate::found::Found;
use crate::obstacle::Obstacle;
use crate::state::State;
use retro_path::{Listing, Path};
use retro_tree::Node;

/// A path, and what two trees have there.
#[derive(Drop)]
pub struct Change {
    /// The path.
    pub path: Path,
    /// What the recorded tree has.
    pub old: Node,
    /// What the repaired tree has.
    pub new: Node,
    /// The mode and owner of the new node, if the folder has nothing of its kind.
    pub given: Attributes,
    /// The names that the recorded tree has in the path.
    pub children: Listing,
}

/// Returns whether a node is found, with any mode and owner.
pub(crate) fn is_found(node: &Node, found: &Found) -> bool
    ensures { result ≡ Changes.is_found node.now found.now }
{
    match (node, found) {
        (Node::Missing, Found::Missing) | (Node::Dir, Found::Dir(_)) => true,
        (Node::File(x), Found::File(y, _)) => x == y,
        _ => false,
    }
}

/// Returns whether one is a directory and the other a file.
fn is_other_kind(old: &Node, new: &Node) -> bool
    ensures { result ≡ Changes.is_other_kind old.now new.now }
{
    match (old, new) {
        (Node::Dir, Node::File(_)) | (Node::File(_), Node::Dir) => true,
        _ => false,
    }
}

impl Change {
    /// Returns how the folder is to the change, by what it holds at the path, and by whether that
    /// is a directory that has to go and has a child that the recorded tree doesn't have.
    pub(crate) fn state(&self, found: &Found, has_other_child: bool) -> State
        ensures { result ≡ Changes.state_of self.now found.now has_other_child }
    {
        if let Found::Blocked(obstacle) = found {
            return State::Blocked(*obstacle);
        }
        if is_found(&self.new, found) {
            return State::Done;
        }
        if is_found(&self.old, found) {
            if has_other_child {
                return State::Blocked(Obstacle::OtherChild);
            }
            return State::Ready;
        }
        if is_other_kind(&self.old, &self.new) && found.is_missing() {
            return State::Ready;
        }
        State::Differs
    }

    /// Returns whether the change removes a directory that is found.
    pub(crate) fn removes_dir(&self, found: &Found) -> bool
        ensures { result ≡ Changes.removes_dir self.now found.now }
    {
        match (found, &self.new) {
            (Found::Dir(_), Node::Missing) | (Found::Dir(_), Node::File(_)) => true,
            _ => false,
        }
    }

    /// Returns the mode and owner of the new node: those of what is found, if that is of its kind.
    fn attributes(&self, found: &Found) -> Attributes
        ensures { result ≡ Changes.kept_or self.now.given self.now.new found.now }
    {
        match (&self.new, found) {
            (Node::Dir, Found::Dir(a)) | (Node::File(_), Found::File(_, a)) => *a,
            _ => self.given,
        }
    }

    /// Returns what the path is to hold, by what is found there.
    pub(crate) fn wanted_node(&self, found: &Found) -> Result<Found, NoMem>
        ensures { IfOk result (λ node. node ≡ Changes.wanted_of self.now found.now) }
    {
        let attributes = self.attributes(found);
        match &self.new {
            Node::Missing => Ok(Found::Missing),
            Node::Dir => Ok(Found::Dir(attributes)),
            Node::File(bytes) => Ok(Found::File(bytes.copy()?, attributes)),
        }
    }

    /// Returns whether something is what the path is to hold, by what was found there.
    pub(crate) fn is_wanted(&self, found: &Found, after: &Found) -> bool
        ensures { result ≡ found_eq (Changes.wanted_of self.now found.now) after.now }
    {
        match (&self.new, after) {
            (Node::Missing, Found::Missing) => true,
            (Node::Dir, Found::Dir(a)) => self.attributes(found) == *a,
            (Node::File(x), Found::File(y, a)) => x == y && self.attributes(found) == *a,
            _ => false,
        }
    }
}
