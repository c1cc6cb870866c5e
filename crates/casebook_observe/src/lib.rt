//! What a recorder does with a record: it looks at the watched folders, and writes what differs from
//! the look before, and then the record.
//!
//! [`Watched`] are the folders, and [`Spool`] is where it is written. [`start`] writes the first look.
//! [`observe`] takes a record: it reads what the last look saw, looks again, keeps the bytes of the
//! files that are new or changed under their SHA-256 digests, and appends an observation to the file
//! `lines`. [`list_again`] writes the file `listing`, so that not all of `lines` has to be read each
//! time; it can always be made of the other files.
//!
//! The bytes of a file are kept before the row that names their digest. A text that was cut off,
//! since the recorder was killed or the disk was full, is overwritten by the next one.
//!
//! If allocation fails, calls return `NoMem` as a variant of their error.
//!
//! Start reading at `watched.rt` and `spool.rt`, then `observing.rt`, `contents.rt` and
//! `last_look.rt`.
//!
//! # What is proved
//!
//! Of a spool and of folders that say what they hold:
//!
//! - After [`observe`] the spool is the one before, but that the contents of new and changed files are
//!   kept, and that what was whole in the file `lines` is followed by the text of an observation. Its
//!   notes are the sights that differ between the last look and this one, what new and changed files
//!   and links hold, and what the recorder read itself [`ok`] (`observed` in `specs/Observed.antt`,
//!   `notes_between` in `specs/Notes.antt`). What was sent was a record [`record`].
//! - Whatever [`observe`] returns, the file `lines` still begins with what was whole, the first look
//!   is the same, and all contents that were kept still are [`any`]. The listing is the same, or it
//!   was emptied since it isn't used: it may be ahead of the file `lines`. If the last look can't be
//!   read, nothing is changed.
//! - The last look is that of the listing, if there is one that isn't ahead of the file `lines`, or
//!   that of the file `first`, with what the file `lines` says since then (`last_look` in
//!   `specs/Last.antt`).
//! - [`start`] writes the first look [`ok`], and changes no file if it fails [`err`].
//!   [`list_again`] writes the last look as a listing [`ok`].
//! - The last look after a record was taken is the look that was taken: the sights that it found,
//!   with the times of reading that it left itself, and all of the file `lines` is whole, whether
//!   the listing was written again or not (`last_look_is_the_one_taken`, with its steps in
//!   `spool_says_the_last_look`; `IsLookOf` in `specs/Followed.antt`). That of a new spool is the
//!   look that was taken too (`first_look_is_the_one_taken`). What was found has to be what the
//!   types of the program can hold (`IsWritable` in `specs/Writable.antt`).
#![tactic(auto)]

mod contents;
mod found;
mod last_look;
mod laws;
mod observe_error;
mod observing;
mod spool;
mod spool_error;
mod watch_error;
mod watched;

pub use found::Found;
pub use laws::{first_look_is_the_one_taken, last_look_is_the_one_taken, spool_says_the_last_look};
pub use observe_error::ObserveError;
pub use observing::{list_again, observe, start};
pub use spool::Spool;
pub use spool_error::SpoolError;
pub use watch_error::WatchError;
pub use watched::Watched;

/// Allocation failed.
pub use retro_path::NoMem;
