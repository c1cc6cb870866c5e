//! Folders that are only looked at.
ghost use Rattle.std.specs.Prelude.{◌≡◌, IfErr, IfOk, IfSome, IsTrue, Option};
ghost use Rattle.casebook_snapshot.specs.Items.{Contents};
ghost use Rattle.casebook_snapshot.specs.Children.{IsListed};
ghost use Rattle.casebook_snapshot.specs.Errors.{is_of_listing};

use crate::child::Child;
use crate::error::SnapshotError;
use crate::item::Item;
use retro_path::Path;
use std::alloc::Global;

/// A folder that is only looked at.
pub trait Listing {
    // What it holds, or `None` where nothing is said of that.
    ghost holds: { Self → Option Contents };

    /// Returns what is at a path, without following links. A directory whose names the system
    /// refuses to list is `Unreadable`.
    fn look(&self, path: &Path) -> Result<Item, SnapshotError>
        ensures ok { IfSome (holds self.now) (λ f. IfOk result (λ item. item ≡ f path.now)) }
        ensures errors { IfErr result (λ error. IsTrue (is_of_listing error)) };

    /// Returns the names in a directory, in any order, or `None` if it isn't a directory any more
    /// that can be listed. A name that is listed twice is looked at twice.
    fn list(&self, alloc: Global, path: &Path) -> Result<Option<Vec<Child>>, SnapshotError>
        ensures ok { IfSome (holds self.now) (λ f. IfOk result (λ children.
            IsListed f path.now children)) }
        ensures errors { IfErr result (λ error. IsTrue (is_of_listing error)) };
}
