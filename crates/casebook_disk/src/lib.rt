//! A folder of the real file system, which is read and changed without following links.
//!
//! [`Disk`] is a `Folder`, and [`DiskListing`] is a `Listing`, a folder that is only looked at.
//! [`DiskWatched`] are folders that are `Watched`, [`DiskSpool`] is a `Spool`, and [`DiskSource`] is
//! a `SpoolSource`, a spool that is only read.
//! Each call names a file in a directory that is open, by `/proc/self/fd/N/NAME`. The directories
//! above it are opened one by one, from the root folder down, and none of them through a link. So
//! nothing outside of the root folder is read or changed, also if somebody else exchanges
//! directories meanwhile.
//!
//! A new node is made under a temporary name beside its path, gets its mode and owner, and is
//! synced. Then the path is looked at again, and the new node is renamed over it. What a stopped
//! step left under a temporary name is removed by the next step of its path, or by `clear`.
//!
//! A listing opens only what is a directory or a file when it is looked at. A file is kept if it
//! has the same size, times and number before and after it is read. Otherwise it is read again,
//! three times in all. Each name in a directory is listed once, also if the directory changes
//! meanwhile. What the system doesn't permit to read or to list is unreadable. If a read fails
//! otherwise, there is no snapshot.
//!
//! # Watched folders
//!
//! A look at watched folders asks the system what is at each path, from an open directory, and opens
//! only directories. What another file system holds is of the kind `Other`, and isn't entered. A
//! name to which no path leads, since it isn't UTF-8, is left out, and so is one that is gone before
//! it is looked at. A name at which the system refuses to look, such as a mount whose server is
//! gone, is there with a sight of zeros. A directory that the system refuses to open has no names.
//!
//! A directory whose number, size, time of writing and time of change are those of the look before
//! has the same names, if it was quiet then, and so it isn't listed again. It was, if the look
//! before has a time that is at least 2 seconds after its last change: its own time of reading, or
//! a time of change of any path that isn't still to come (nobody can set that). Why that is enough:
//! let T be its last change. All these times were there when the look before ended. A look takes
//! 1.5 seconds at most, so that look began half a second after T or later. Either it listed the
//! directory. The times of a file system are at most 10 milliseconds behind the clock, so each
//! change after that has a later time than T, and would show now. Or it didn't list the directory,
//! since it was quiet and unchanged then, and the same is true of the look before that one.
//!
//! A directory that isn't quiet is listed at each look. If the file system sets the time of reading
//! at each listing (`strictatime`), one that has been unchanged for 2 seconds is listed again,
//! and then no more until it changes. Otherwise (`relatime`, `noatime`) it is listed until something
//! else in the folders has changed 2 seconds later. The rule fails if the clock goes back to just
//! the time T, if somebody sets a time of reading that is still to come, or if the clock of a file
//! server is ahead by a second, each time only for what is changed within 10 milliseconds after a
//! look.
//!
//! When a directory was read last is asked right after it is listed, and when a file or a link was,
//! right after it is read. If nobody else has changed or read it since the look, by any of its names,
//! `looked` says so. Whatever comes after that is somebody else's.
//!
//! # Spools
//!
//! A spool has the files `watch`, `unseen`, `first`, `lines`, `listing`, `lock` and
//! `contents/ab/REST`, where `ab` and `REST` are the digits of a SHA-256 digest. It is a directory into which only its owner
//! can look. The file `lock` is locked as long as a `DiskSpool` is open. `watch` has a row for each
//! folder, as `casebook_rows` writes paths; that of the root is empty. `unseen` has such a row for
//! each of them in which it wasn't always seen what lines only read, by how they were mounted; that
//! of the root is a slash. It is missing if there is none. New files are written under
//! temporary names and then renamed, but for `lines`, to which texts are appended. All of them are
//! synced. What can't be written as a whole, as on a full disk, is removed again.
//!
//! A `DiskSource` locks the file `lock` only while it reads `first` and `lines`, so both are of one
//! moment, and others can have the spool while contents are read. What `lines` names was kept
//! before `lines` named it, and is never changed or removed. It writes nothing, so the disk can be
//! mounted read-only.
//!
//! # What is left to chance
//!
//! - Between the last look and the rename somebody who can write into the directory can still
//!   exchange the file of that one name. Whatever comes in that moment is lost.
//! - Between a look at a file and its opening somebody can put a pipe in its place. Opening it
//!   waits for a writer then. If it is a socket, or a link to itself, there is no snapshot.
//! - A file that is changed twice within one tick of the system's clock can look unchanged.
//!
//! If allocation fails, calls return `NoMem`.
//!
//! Start reading at `disk.rt`, then `place.rt` and `temporary.rt`; for listings at
//! `disk_listing.rt`, then `item.rt` and `names.rt`; for watched folders at `disk_watched.rt`, then
//! `walk.rt`, `level.rt` and `earlier.rt`; for spools at `disk_spool.rt`, then `spool_files.rt`,
//! `shelf.rt` and `disk_source.rt`.
//!
//! # What is proved
//!
//! Nothing is proved of what a disk holds, since no contract says that. Proved is that `Disk` keeps
//! the steps for which it is asked, in their order, that `Changed` is returned only before a step,
//! and what each `Folder` and `Listing` promises besides. What `DiskListing` finds in real folders
//! is tested by `checks/folders`, and what `Disk` does in them by `checks/restores`. Of
//! `DiskWatched`, `DiskSpool` and `DiskSource` only that they stop at no fault is proved.
#![tactic(auto)]

mod disk;
mod disk_listing;
mod disk_source;
mod disk_spool;
mod disk_watched;
mod earlier;
mod errors;
mod folder_list;
mod item;
mod level;
mod names;
mod new_file;
mod own_readings;
mod place;
mod reading;
mod scope;
mod shelf;
mod sighting;
mod spool_files;
mod target;
mod temporary;
mod unseen;
mod walk;
mod watched_node;

pub use disk::Disk;
pub use disk_listing::DiskListing;
pub use disk_source::DiskSource;
pub use disk_spool::{DiskSpool, unseen_rows, watched_folders};
pub use disk_watched::DiskWatched;
pub use new_file::write_new_file;

/// Allocation failed.
pub use retro_path::NoMem;
