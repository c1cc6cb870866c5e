//! Visits of single paths.
ghost use Rattle.std.specs.Prelude.{IfErr, IfOk, IfSome, IsTrue};
ghost use Rattle.casebook_snapshot.specs.Errors.{is_of_listing};
ghost use Rattle.casebook_snapshot.specs.inner.Visits.{IsVisit};

use crate::child::{Child, ChildPath};
use crate::error::SnapshotError;
use crate::item::{Item, Row};
use crate::listing::Listing;
use crate::reason::{Reason, path_reason};
use retro_path::Path;
use retro_tree::Entry;
use std::alloc::Global;

/// What is to be done with a child of a directory.
#[derive(Drop)]
pub(crate) enum Visit {
    /// Nothing: it isn't there any more.
    Gone,
    /// It is skipped.
    Skip(Reason),
    /// It is kept at this path, and these children of it are to be visited.
    Keep(Path, Row, Vec<Child>),
}

/// Looks at a child of a directory, and says what is to be done with it.
pub(crate) fn visit_child<L: Listing>(
    alloc: Global,
    listing: &L,
    skip: &[Path],
    child: &Child,
) -> Result<Visit, SnapshotError>
    ensures ok { IfSome (L.holds listing.now) (λ f. IfOk result (λ visit.
        IsVisit f skip.now child.now visit)) }
    ensures errors { IfErr result (λ error. IsTrue (is_of_listing error)) }
{
    let path = match child.path(alloc)? {
        ChildPath::Is(path) => path,
        ChildPath::Never(reason) => return Ok(Visit::Skip(reason)),
    };
    if let Some(reason) = path_reason(skip, &path) {
        return Ok(Visit::Skip(reason));
    }
    let item = listing.look(&path)?;
    if let Some(reason) = item.reason() {
        return Ok(Visit::Skip(reason));
    }
    match item {
        Item::Missing | Item::Barred(_) => Ok(Visit::Gone),
        Item::File(bytes, attributes) => {
            let entry = Entry::File(bytes);
            Ok(Visit::Keep(path, Row { entry, attributes }, Vec::new(alloc)))
        }
        Item::Dir(attributes) => {
            let Some(children) = listing.list(alloc, &path)? else {
                return Ok(Visit::Skip(Reason::Changing));
            };
            let entry = Entry::Dir;
            Ok(Visit::Keep(path, Row { entry, attributes }, children))
        }
    }
}
