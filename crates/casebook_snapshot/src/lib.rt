//! Snapshots: what a folder holds, as the rows of a lawful tree and a list of what was skipped.
//!
//! A `Listing` is a folder that is only looked at: `look` says what it holds at a path, and `list`
//! says which names a directory has, UTF-8 or not. In contracts it is a function from paths to
//! `Item`s. `Memory` is a listing in memory. `Placed` puts a listing at a path: the directories
//! above that path are there, and nothing besides.
//!
//! [`walk`] goes over a listing from its root on, and returns a [`Snapshot`]: a row for each
//! directory and file that is kept, with mode and owner, and each path that is skipped, with its
//! `Reason`. Nothing below a skipped path is looked at.
//!
//! If allocation fails, calls return `NoMem`.
//!
//! Start reading at `listing.rt` and `item.rt`, then `walking.rt`.
//!
//! # What is proved
//!
//! - `walk` returns a row for exactly those paths of the folder that are kept, with the node, mode
//!   and owner that the folder holds there [`rows` of `IsSnapshot`]. A path is kept if it is a
//!   directory or file, no reason to skip it applies, and each directory above it is kept.
//! - A path is listed as skipped, with a reason, exactly if the folder holds something there, the
//!   directories above it are kept, and this is the first reason that applies [`skipped`].
//! - If nothing is below a file or below nothing, each path that holds something is either in a row
//!   or at or below a skipped path, in exactly one of both (`snapshots_are_complete`).
//! - The rows are those of a lawful tree (`snapshots_are_lawful`): the root and each parent is a
//!   directory, nothing is at `/dev/null` or below it, names have at most 255 bytes, and files at
//!   most 1,048,576. A name with a NUL isn't kept, by the definition of what is kept alone.
//! - `NotADirectory` is returned only if the root isn't a directory.
//! - A folder that is put at a path holds there and below what it holds itself, directories above,
//!   and nothing at other paths [`holds` of `Placed`]. So the above is true of its paths there.
#![tactic(auto)]

mod child;
mod error;
mod item;
mod laws;
mod listing;
mod memory;
mod placed;
mod reason;
mod snapshot;
mod visit;
mod walking;

pub use child::{Child, ChildPath};
pub use error::SnapshotError;
pub use item::{Item, Row};
pub use laws::{snapshots_are_complete, snapshots_are_lawful};
pub use listing::Listing;
pub use memory::{Memory, MemoryEntry};
pub use placed::Placed;
pub use reason::Reason;
pub use snapshot::{SkippedPath, Snapshot};
pub use walking::walk;

/// Allocation failed.
pub use retro_path::NoMem;
