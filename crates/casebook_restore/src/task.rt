//! What is asked for of a restore, and its plan.
ghost use Rattle.std.specs.Prelude.{◌≡◌};
ghost use Rattle.std.specs.List.{list_all};
ghost use Rattle.casebook_folder.specs.Plans.{can_be_restored};
ghost use Rattle.casebook_restore.specs.Plans.{can_be_carried_out};

use casebook_folder::{PlannedRow, Trees};
use retro_path::Path;
use retro_tree::Node;

/// From which tree to which a folder is brought, and in which paths.
#[derive(Clone, Copy)]
pub struct RestoreTask<'a> {
    /// The recorded and the repaired tree, and the modes and owners of what is new.
    pub trees: Trees<'a>,
    /// Where the folder is in the trees.
    pub at: &'a Path,
    /// The chosen paths, with what is below them. If there are none, all paths are chosen.
    pub only: &'a [Path],
}

/// A path at which the repaired tree has a text that stands for what isn't kept.
#[derive(Drop)]
pub struct UnkeptPath {
    /// The path.
    pub path: Path,
    /// The file with that text.
    pub node: Node,
}

/// What a restore would do in a folder.
#[derive(Drop)]
pub struct RestorePlan {
    /// The paths that are restored, in order, each with what the folder holds there.
    pub rows: Vec<PlannedRow>,
    /// The chosen paths in which the trees differ, and that can't be restored, as what was there
    /// isn't kept.
    pub unkept: Vec<UnkeptPath>,
    /// In how many paths that aren't below the folder's the trees differ.
    pub outside: usize,
    /// In how many paths below the folder's that aren't chosen the trees differ.
    pub left_out: usize,
}

impl RestorePlan {
    /// Returns whether the folder is ready for each row or done with it.
    fn is_ready_or_done(&self) -> bool
        ensures { result ≡ list_all can_be_restored self.now.rows.items }
    {
        self.rows
            .iter()
            .all(|row| row.state.is_ready() || row.state.is_done())
    }

    /// Returns whether what was at each path is kept, and the folder is ready for it or done with
    /// it.
    pub fn can_be_carried_out(&self) -> bool
        ensures { result ≡ can_be_carried_out self.now }
    {
        matches!(self.unkept.as_slice(), []) && self.is_ready_or_done()
    }
}
