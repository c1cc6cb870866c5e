//! Modes and owners of new nodes.
ghost use Rattle.std.specs.Prelude.{◌≡◌};
ghost use Rattle.std.specs.Option.{unwrap_or};
ghost use Rattle.std.specs.BTreeMap.{get_by};
ghost use Rattle.retro_path.specs.Order.{path_cmp};

use crate::attributes::Attributes;
use retro_path::Path;
use retro_tree::Node;
use std::collections::BTreeMap;

/// The attributes of files and directories that come where the folder has none of their kind.
#[derive(Drop)]
pub struct GivenAttributes {
    /// Those of files, as far as they are known.
    pub files: BTreeMap<Path, Attributes>,
    /// Those of directories, as far as they are known.
    pub dirs: BTreeMap<Path, Attributes>,
    /// Those of all other files.
    pub file: Attributes,
    /// Those of all other directories.
    pub dir: Attributes,
}

impl GivenAttributes {
    ghost use Rattle.casebook_folder.specs.Changes as Changes;

    /// Returns the attributes of a new node at a path. Those of no node are those of a file.
    pub(crate) fn attributes_for(&self, path: &Path, node: &Node) -> Attributes
        ensures { result ≡ Changes.given_for self.now path.now node.now }
    {
        match node {
            Node::Dir => known_or(&self.dirs, path, self.dir),
            _ => known_or(&self.files, path, self.file),
        }
    }
}

/// Returns the attributes of a path, or others if a map has none for it.
fn known_or(known: &BTreeMap<Path, Attributes>, path: &Path, other: Attributes) -> Attributes
    ensures { result ≡ unwrap_or (get_by (path_cmp path.now) known.now) other }
{
    match known.get(path) {
        Some(attributes) => *attributes,
        None => other,
    }
}
