//! Listings at a path.
ghost use Rattle.std.specs.Prelude.{◌≡◌, IfErr, IfOk, IsTrue, map};
ghost use Rattle.retro_path.specs.Path.{below};
ghost use Rattle.casebook_snapshot.specs.Errors.{is_of_listing};
ghost use Rattle.casebook_snapshot.specs.Placed.{placed_contents};
ghost use Rattle.casebook_snapshot.specs.inner.Placing.{IsTowards, moved_to};

use crate::NoMem;
use crate::child::Child;
use crate::error::SnapshotError;
use crate::item::Item;
use crate::listing::Listing;
use casebook_folder::Attributes;
use retro_path::Path;
use std::alloc::Global;

/// What is said of the mode and owner of directories above the folder, of which nothing is known.
const ABOVE: Attributes = Attributes {
    mode: 0o755,
    uid: 0,
    gid: 0,
};

/// A folder that is put at a path: the directories above that path are there, and nothing besides.
#[derive(Drop)]
pub struct Placed<L: Listing> {
    alloc: Global,
    listing: L,
    at: Path,
}

/// Returns the path of the names that follow a prefix of a path, or `None` if it isn't a prefix.
fn rest_of(alloc: Global, prefix: &Path, path: &Path) -> Result<Option<Path>, SnapshotError>
    ensures ok { IfOk result (λ rest. rest ≡ below prefix.now path.now) }
    ensures errors { IfErr result (λ error. IsTrue (is_of_listing error)) }
{
    let Some(names) = path.strip_prefix(prefix) else {
        return Ok(None);
    };
    let mut texts = Vec::new(alloc);
    for name in names {
        texts.push(String::from_str(alloc, name)?)?;
    }
    match Path::of(alloc, texts)? {
        Some(rest) => Ok(Some(rest)),
        // It doesn't happen: the names of a path are names of files.
        None => Err(SnapshotError::Failed),
    }
}

/// Returns children with another directory above them.
fn moved(alloc: Global, path: &Path, children: Vec<Child>) -> Result<Vec<Child>, NoMem>
    ensures { IfOk result (λ moved. moved.items ≡ map (moved_to path.now) children.items) }
{
    let mut moved = Vec::new(alloc);
    for child in children {
        let Child { name, .. } = child;
        let parent = path.copy()?;
        moved.push(Child { parent, name })?;
    }
    Ok(moved)
}

/// Returns the child of a directory that leads to a path, if there is one.
fn child_towards(alloc: Global, path: &Path, at: &Path) -> Result<Vec<Child>, NoMem>
    ensures { IfOk result (λ children.
        IsTowards path.now (below path.now at.now) children.items) }
{
    let mut children = Vec::new(alloc);
    let Some(mut names) = at.strip_prefix(path) else {
        return Ok(children);
    };
    let Some(first) = names.next() else {
        return Ok(children);
    };
    let mut name = Vec::new(alloc);
    name.extend_from_slice(first.as_bytes())?;
    let parent = path.copy()?;
    children.push(Child { parent, name })?;
    Ok(children)
}

impl<L: Listing> Placed<L> {
    /// Puts a folder at a path.
    pub fn new(alloc: Global, listing: L, at: Path) -> Placed<L>
        ensures listing { result.listing ≡ listing }
        ensures at { result.at ≡ at }
    {
        Placed { alloc, listing, at }
    }
}

impl<L: Listing> Listing for Placed<L> {
    // Nothing is said where the folder isn't a directory.
    ghost holds = { λ p. placed_contents p.at (L.holds p.listing) };

    fn look(&self, path: &Path) -> Result<Item, SnapshotError> {
        if let Some(inside) = rest_of(self.alloc, &self.at, path)? {
            return self.listing.look(&inside);
        }
        if self.at.starts_with(path) {
            return Ok(Item::Dir(ABOVE));
        }
        Ok(Item::Missing)
    }

    fn list(&self, alloc: Global, path: &Path) -> Result<Option<Vec<Child>>, SnapshotError> {
        let Some(inside) = rest_of(self.alloc, &self.at, path)? else {
            return Ok(Some(child_towards(alloc, path, &self.at)?));
        };
        let Some(children) = self.listing.list(alloc, &inside)? else {
            return Ok(None);
        };
        Ok(Some(moved(alloc, path, children)?))
    }
}
