//! Recorded paths that a snapshot skipped.
ghost use Rattle.std.specs.Prelude.{◌≡◌, IfOk};
ghost use Rattle.std.specs.List.{filter_map};
ghost use Rattle.std.specs.Option.{option_copied};
ghost use Rattle.casebook_compare.specs.Unread.{is_kept, unread_of};

use crate::NoMem;
use casebook_opaque::is_opaque;
use casebook_snapshot::{ChildPath, Reason, SkippedPath};
use retro_tree::{Entry, Path, Tree};
use std::alloc::Global;

/// A path that is recorded, and that a snapshot skipped.
#[derive(Drop)]
pub struct UnreadPath {
    /// The path.
    pub path: Path,
    /// Why it was skipped.
    pub reason: Reason,
}

/// Returns whether something is recorded that a snapshot should have: neither nothing, nor what
/// stands for a link, a device or a file that isn't kept.
fn is_kept(recorded: Option<&Entry>) -> bool
    ensures { result ≡ is_kept (option_copied recorded.entry) }
{
    match recorded {
        None => false,
        Some(Entry::Dir) => true,
        Some(Entry::File(bytes)) => !is_opaque(bytes.as_slice()),
    }
}

/// Returns a path that a snapshot skipped, if a snapshot should have it and nobody asked to skip
/// it.
fn unread_of(
    alloc: Global,
    recorded: &Tree,
    skipped: &SkippedPath,
) -> Result<Option<UnreadPath>, NoMem>
    ensures { IfOk result (λ found. found ≡ unread_of recorded.now skipped.now) }
{
    match (skipped.child.path(alloc)?, skipped.reason) {
        (ChildPath::Never(_), _) | (_, Reason::Asked) => Ok(None),
        (ChildPath::Is(path), reason) => {
            if !is_kept(recorded.get(&path)) {
                return Ok(None);
            }
            Ok(Some(UnreadPath { path, reason }))
        }
    }
}

/// Returns the paths that a snapshot skipped, in its order, that it should have and that nobody
/// asked to skip.
pub(crate) fn unread_paths(
    alloc: Global,
    recorded: &Tree,
    skipped: &[SkippedPath],
) -> Result<Vec<UnreadPath>, NoMem>
    ensures { IfOk result (λ unread.
        unread.items ≡ filter_map (unread_of recorded.now) skipped.now) }
{
    let mut unread = Vec::new(alloc);
    for one in skipped {
        if let Some(path) = unread_of(alloc, recorded, one)? {
            unread.push(path)?;
        }
    }
    Ok(unread)
}
