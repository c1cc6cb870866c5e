//! What a recorder kept, in a screen: since when, whose sessions, how many lines, and what is
//! missing.
//!
//! [`spool_status`] says it of a case's document, and of what a machine says of itself, a [`Host`]. A
//! row that begins with a question mark says that something is missing: lines of which no record was
//! taken, folders in which it isn't seen what lines only read, or logins without a session.
//!
//! If allocation fails, calls return `NoMem`, alone or as a variant of their error.
//!
//! Start reading at `status.rt` and `rows.rt`.
//!
//! # What is proved
//!
//! [`spool_status`] returns the rows that `specs/Status.antt` defines of the sessions and lines of the
//! case, and whether one of them says that something is missing [`ok`, by `IsStatusIn`]. It fails
//! only if the text is no case, or its lines can't be told [`err`]. The times of the first row are as
//! `jiff` shows them.
#![tactic(auto)]

mod counts;
mod host;
mod logins;
mod people;
mod pieces;
mod recorded;
mod rows;
mod status;

pub use host::Host;
pub use status::{Status, spool_status};

/// Allocation failed.
pub use retro_path::NoMem;
