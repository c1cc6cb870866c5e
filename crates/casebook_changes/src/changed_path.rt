//! Paths in which two trees differ.
use retro_tree::Path;

/// How what is at a path differs between two trees.
#[derive(Clone, Copy, PartialEq, Eq, Debug)]
pub enum PathChange {
    /// The path is missing in the tree before, and not in the tree after.
    Added,
    /// The path is missing in the tree after, and not in the tree before.
    Removed,
    /// The path is in both trees: as a file and as a directory, or as files with different bytes.
    Modified,
}

/// A path in which two trees differ.
#[derive(Drop)]
pub struct ChangedPath {
    /// The path.
    pub path: Path,
    /// How the trees differ there.
    pub change: PathChange,
}
