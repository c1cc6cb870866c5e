//! The files of a spool, in which a recorder keeps what it saw: text that people can read, and that
//! is read back exactly.
//!
//! A spool has a first look at the watched folders, and then an observation for each record of the
//! hook. An observation is some notes, of what differs from the look before, and the record. In the
//! file `lines` each note is a row, and then the record is one, as `casebook_rows` writes rows:
//!
//! - `dir`, `file`, `link` or `other`: a path, and its sight: mode in octal, owner, group, size,
//!   number, and the second and the nanosecond when it was read, written and changed last.
//! - `gone`: a path at which nothing is any more.
//! - `bytes`: the path of a file, and the digest under which its bytes are kept.
//! - `target`: the path of a link, and where it leads.
//! - `unkept`: the path of a file whose bytes aren't kept, and `too-large`, `unreadable` or
//!   `changing`.
//! - `looked`: a path that the recorder read itself, and when it was read last since then.
//! - `record`: the fields of a record.
//!
//! Notes after the last record belong to an observation that was cut off, and don't count; nor does
//! what follows the last newline.
//!
//! The files `first` and `listing` are listings: a row `listing` with a byte of the file `lines` and
//! a count, and so many notes. The first look is one of byte 0. A listing that is cut off has fewer
//! notes than it says, so it isn't one.
//!
//! If allocation fails, calls return `NoMem`.
//!
//! Start reading at `note.rt` and `item.rt`, then `writing.rt`, `reading.rt`, `lines.rt` and
//! `listing.rt`.
//!
//! # What is proved
//!
//! - [`observation_text`], [`listing_text`] and [`sights_text`] return exactly the text that
//!   `specs/Written.antt` defines.
//! - [`read_lines`] returns the items that the definition of the format gives for the bytes and how
//!   many bytes they have, or the number of the first row that is wrong (`specs/Lines.antt`,
//!   `specs/Reading.antt`) [`value`]. [`read_listing`] returns the listing that the bytes are, or
//!   `None` (`specs/Listings.antt`).
//! - A note is read back from its row (`notes_are_read_back`). Observations are read back from their
//!   texts, one after the other, whatever was cut off after them, and that is known to be all that is
//!   whole (`lines_are_read_back`). A listing is read back from its text, and no front of the text is
//!   one (`listings_are_read_back`).
//! - [`Contents::add`] keeps bytes under their own digest, so that no others are found there.
//! - [`after_notes`] and [`after_items`] make the notes of sights one after the other
//!   (`specs/After.antt`).
#![tactic(auto)]

mod after;
mod content;
mod contents;
mod digest;
mod head;
mod item;
mod laws;
mod lines;
mod listing;
mod note;
mod reading;
mod row_fault;
mod word;
mod writing;

pub use after::{after_items, after_notes};
pub use content::{Content, Unkept};
pub use contents::Contents;
pub use digest::Digest;
pub use item::Item;
pub use laws::{lines_are_read_back, listings_are_read_back, notes_are_read_back};
pub use lines::{Lines, LinesError, read_lines};
pub use listing::{Listing, read_listing};
pub use note::{Holds, Looked, Note};
pub use writing::{listing_text, observation_text, sights_text};

/// Allocation failed.
pub use retro_path::NoMem;
