//! Folders at a path.
ghost use Rattle.std.specs.Prelude.{◌≡◌, IfErr, IfOk, IsTrue, Some, option_map};
ghost use Rattle.retro_path.specs.Path.{below};
ghost use Rattle.casebook_folder.specs.Errors.{is_of_look};
ghost use Rattle.casebook_restore.specs.inner.Placed.{moved_steps, placed, placed_parts};

use casebook_folder::{Folder, FolderError, Found};
use retro_path::{Listing, Path};
use std::alloc::Global;

/// A folder that is put at a path: what is below that path is below the folder. It fails where it
/// is asked about another path, and changes nothing there.
#[derive(Drop)]
pub struct PlacedFolder<F: Folder> {
    alloc: Global,
    folder: F,
    at: Path,
}

/// Returns the path of the names that follow the folder's.
///
/// # Errors
///
/// `Failed` if the path isn't the folder's or below it.
fn inside(alloc: Global, at: &Path, path: &Path) -> Result<Path, FolderError>
    ensures ok { IfOk result (λ inside. below at.now path.now ≡ Some inside) }
    ensures errors { IfErr result (λ error. IsTrue (is_of_look error)) }
{
    let Some(names) = path.strip_prefix(at) else {
        return Err(FolderError::Failed);
    };
    let mut texts = Vec::new(alloc);
    for name in names {
        texts.push(String::from_str(alloc, name)?)?;
    }
    match Path::of(alloc, texts)? {
        Some(inside) => Ok(inside),
        // It doesn't happen: the names of a path are names of files.
        None => Err(FolderError::Failed),
    }
}

impl<F: Folder> PlacedFolder<F> {
    /// Puts a folder at a path.
    pub fn new(alloc: Global, folder: F, at: Path) -> PlacedFolder<F>
        ensures folder { result.folder ≡ folder }
        ensures at { result.at ≡ at }
    {
        PlacedFolder { alloc, folder, at }
    }
}

impl<F: Folder> Folder for PlacedFolder<F> {
    ghost first = { λ p. option_map (placed p.at) (F.first p.folder) };

    ghost made = { λ p. moved_steps p.at (F.made p.folder) };

    ghost parts = { λ p. placed_parts p.at (F.parts p.folder) };

    fn look(&self, path: &Path) -> Result<Found, FolderError> {
        let inside = inside(self.alloc, &self.at, path)?;
        self.folder.look(&inside)
    }

    fn has_other_child(&self, path: &Path, names: &Listing) -> Result<bool, FolderError> {
        let inside = inside(self.alloc, &self.at, path)?;
        self.folder.has_other_child(&inside, names)
    }

    fn put(&mut self, path: &Path, before: &Found, after: &Found) -> Result<(), FolderError> {
        let inside = inside(self.alloc, &self.at, path)?;
        self.folder.put(&inside, before, after)
    }

    fn clear(&mut self, path: &Path) -> Result<(), FolderError> {
        let inside = inside(self.alloc, &self.at, path)?;
        self.folder.clear(&inside)
    }
}
