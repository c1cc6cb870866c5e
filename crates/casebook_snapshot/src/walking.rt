//! The walk over a folder.
ghost use Rattle.std.specs.Prelude.{◌≡◌, [], Err, IfErr, IfOk, IfSome, IsTrue, OnOk, false};
ghost use Rattle.casebook_snapshot.specs.Errors.{is_of_listing};
ghost use Rattle.casebook_snapshot.specs.Items.{is_dir};
ghost use Rattle.casebook_snapshot.specs.Snapshots.{IsSnapshot};
ghost use Rattle.casebook_snapshot.specs.inner.Walks.{IsTaken, IsWalked};
ghost use Rattle.casebook_snapshot.specs.declared.error.SnapshotError.TheVariants as errors;

use crate::child::Child;
use crate::error::SnapshotError;
use crate::item::{Item, Row};
use crate::listing::Listing;
use crate::snapshot::{SkippedPath, Snapshot};
use crate::visit::{Visit, visit_child};
use retro_path::Path;
use retro_tree::Entry;
use std::alloc::Global;
use std::collections::BTreeMap;

/// How far a walk has come.
#[derive(Drop)]
pub(crate) struct Progress {
    /// What was kept and skipped until now.
    pub(crate) snapshot: Snapshot,
    /// What is left to visit.
    pub(crate) left: Vec<Child>,
}

impl Progress {
    /// Does with a child what its visit says.
    fn take(&mut self, child: Child, visit: Visit) -> Result<(), SnapshotError>
        ensures ok { OnOk result (IsTaken child visit self.old self.new) }
        ensures errors { IfErr result (λ error. IsTrue (is_of_listing error)) }
    {
        match visit {
            Visit::Gone => {}
            Visit::Skip(reason) => self.snapshot.skipped.push(SkippedPath { child, reason })?,
            Visit::Keep(path, held, children) => {
                let mut children = children;
                self.left.append(&mut children)?;
                self.snapshot.rows.insert(path, held)?;
            }
        }
        Ok(())
    }
}

/// Begins a walk: keeps the root, and leaves what is in it to visit.
fn begin<L: Listing>(alloc: Global, listing: &L, skip: &[Path]) -> Result<Progress, SnapshotError>
    ensures ok { IfSome (L.holds listing.now) (λ f. IfOk result (λ walk.
        IsWalked f skip.now walk.snapshot walk.left.items)) }
    ensures err { IfSome (L.holds listing.now) (λ f. result ≡ Err errors.NotADirectory
        → is_dir (f []) ≡ false) }
{
    let root = Path::root(alloc);
    let Item::Dir(attributes) = listing.look(&root)? else {
        return Err(SnapshotError::NotADirectory);
    };
    let Some(left) = listing.list(alloc, &root)? else {
        return Err(SnapshotError::Failed);
    };
    let entry = Entry::Dir;
    let mut rows = BTreeMap::new(alloc);
    rows.insert(root, Row { entry, attributes })?;
    let skipped = Vec::new(alloc);
    Ok(Progress {
        snapshot: Snapshot { rows, skipped },
        left,
    })
}

/// Goes over a folder from its root on, without following links. The paths to skip are skipped with
/// all that is below them; the root itself can't be skipped.
///
/// # Errors
///
/// `NotADirectory` if the root isn't a directory, and the errors of the listing.
pub fn walk<L: Listing>(
    alloc: Global,
    listing: &L,
    skip: &[Path],
) -> Result<Snapshot, SnapshotError>
    ensures ok { IfSome (L.holds listing.now) (λ f. IfOk result (λ snapshot.
        IsSnapshot f skip.now snapshot)) }
    ensures err { IfSome (L.holds listing.now) (λ f. result ≡ Err errors.NotADirectory
        → is_dir (f []) ≡ false) }
{
    let mut walk = begin(alloc, listing, skip)?;
    for _ in 0..u64::MAX {
        match walk.left.pop() {
            None => return Ok(walk.snapshot),
            Some(child) => {
                let visit = visit_child(alloc, listing, skip, &child)?;
                walk.take(child, visit)?;
            }
        }
    }
    Err(SnapshotError::Failed)
}
