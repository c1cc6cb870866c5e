//! Comparisons of recordings with folders.
ghost use Rattle.std.specs.Prelude.{◌≡◌};
ghost use Rattle.casebook_compare.specs.Comparison.{has_differences};

use crate::unread::UnreadPath;
use casebook_changes::ChangedPath;
use retro_tree::State;

/// What a comparison of a recorded tree with a snapshot of a folder finds.
#[derive(Drop)]
pub struct Comparison {
    /// The folder's tree.
    pub folder: State,
    /// How many paths of the folder are as recorded.
    pub same: usize,
    /// The paths that aren't, in order of paths. `Added` are those that only the folder has, and
    /// `Removed` those that it lacks.
    pub different: Vec<ChangedPath>,
    /// The recorded paths that the snapshot skipped, though nobody asked for it, in its order.
    pub unread: Vec<UnreadPath>,
}

impl Comparison {
    /// Returns whether a path isn't as recorded, or was skipped though it is recorded.
    pub fn has_differences(&self) -> bool
        ensures { result ≡ has_differences self.now }
    {
        match (self.different.as_slice(), self.unread.as_slice()) {
            ([], []) => false,
            _ => true,
        }
    }
}
