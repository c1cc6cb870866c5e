//! Folders and files that a program reads, and folders that it changes.
ghost use Rattle.std.specs.Prelude.{◌≡◌, [], IfOk, IfSome, Option, Some, option_map};
ghost use Rattle.casebook_folder_cli.specs.Folders.{AllFolders, IsSnapshotAt};

use crate::source::Mounts;
use casebook_folder::{Folder, FolderError};
use casebook_snapshot::{Item, Listing, Placed, Snapshot, SnapshotError, walk};
use retro_path::Path;
use std::alloc::Global;

/// The user and the group whose new files and directories are.
#[derive(Clone, Copy, Debug, PartialEq, Eq)]
pub struct Owner {
    /// The user's number.
    pub uid: u32,
    /// The group's number.
    pub gid: u32,
}

/// Folders and files with names, the undo files of restores, and a clock.
pub trait Folders {
    /// A folder that is open to be looked at.
    type Listed: Listing + Drop;

    /// A folder that is open to be changed.
    type Opened: Folder + Drop;

    // What the folders and files with names hold; or `None` where nothing is said of that.
    ghost holds: { Self → Option AllFolders };

    /// Opens the folder with a name to look at what it holds, without or with what other file
    /// systems hold that are mounted in it.
    fn list(&self, alloc: Global, name: &str, mounts: Mounts) -> Result<Self::Listed, SnapshotError>
        ensures { IfSome (holds self.now) (λ folders. IfOk result (λ listing.
            Self.Listed.holds listing ≡ Some (folders.listed name.now mounts))) };

    /// Returns the bytes of the file with a name.
    fn file(&self, alloc: Global, name: &str) -> Result<Vec<u8>, SnapshotError>
        ensures { IfSome (holds self.now) (λ folders. IfOk result (λ bytes.
            bytes.items ≡ folders.files name.now)) };

    /// Returns the time, in seconds since the start of 1970 (UTC).
    fn now(&self) -> Result<i64, SnapshotError>;

    /// Opens the folder with a name, which is put at a path, to change what is below that.
    fn open(&self, alloc: Global, name: &str, at: &Path) -> Result<Self::Opened, SnapshotError>
        ensures { IfSome (holds self.now) (λ folders. IfOk result (λ folder.
            (Self.Opened.first folder ≡ Some (folders.opened name.now at.now))
            × (Self.Opened.made folder ≡ []))) };

    /// Returns the user and the group who run the program.
    fn owner(&self) -> Result<Owner, SnapshotError>;

    /// Returns the undo file with a name, or `None` if there is no such file.
    fn undo_file(&self, alloc: Global, name: &str) -> Result<Option<Vec<u8>>, FolderError>
        ensures { IfSome (holds self.now) (λ folders. IfOk result (λ found.
            option_map (λ text. text.items) found ≡ folders.undo_files name.now)) };

    /// Writes a new undo file, and returns when it is on the disk. Fails if there is a file with
    /// the name.
    fn keep(&self, alloc: Global, name: &str, text: &[u8]) -> Result<(), FolderError>;
}

/// Takes a snapshot of a listing, which is put at a path, without the paths to skip and what is
/// below them.
///
/// # Errors
///
/// `NotADirectory` if the root of the listing isn't a directory, and the errors of the listing.
pub fn snapshot_at<L: Listing + Drop>(
    alloc: Global,
    listing: L,
    at: &Path,
    skip: &[Path],
) -> Result<Snapshot, SnapshotError>
    ensures { IfSome (L.holds listing) (λ f. IfOk result (IsSnapshotAt f at.now skip.now)) }
{
    match listing.look(&Path::root(alloc))? {
        Item::Dir(_) => {}
        _ => return Err(SnapshotError::NotADirectory),
    }
    let placed = Placed::new(alloc, listing, at.copy()?);
    walk(alloc, &placed, skip)
}
