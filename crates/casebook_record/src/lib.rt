//! The records of the recorder, read from their bytes.
//!
//! A recorder writes what happens in sessions of a shell: when a session starts, when a line begins
//! and ends, and when the session ends. A record is a list of fields, each ended by a NUL, so a
//! field may have any other bytes. [`read_record`] returns the [`Record`] of some bytes, or the
//! [`RecordError`] that applies first. It reads the fields in their order: the five that all kinds
//! have, and then those of the kind, once it is known that none is missing and that there are no
//! more. A record with fewer than five fields is cut off, whatever is in them, and one of an unknown
//! kind has no other error. [`fields_of`] and [`record_in`] are its two steps, for records that are
//! kept as lists of fields.
//!
//! If allocation fails, `read_record` returns `RecordError::NoMem`.
//!
//! Start reading at `record.rt`, `event.rt` and `record_error.rt`, then `fields.rt`.
//!
//! # What is proved
//!
//! - `read_record` returns exactly the record that the definition of the format gives for the
//!   bytes, or the definition's error (`record_of` in `specs/Records.antt`, over the list of the
//!   fields; the fields of each kind are in `specs/Events.antt`, and what a field may be in
//!   `specs/Numbers.antt`, `specs/Names.antt`, `specs/Statuses.antt` and `specs/Texts.antt`).
//! - Fields without a NUL are read back as they were written (`written_fields_are_read_back`). So
//!   texts are given back unchanged, whatever other bytes they have.
//! - The parts of a record keep their rules: the name of a session is one, a directory begins with
//!   a slash, the number of a line isn't 0, a umask has 12 bits, and there is at least one status.
#![tactic(auto)]

mod begin;
mod directory;
mod end;
mod event;
mod exit;
mod fields;
mod kind;
mod laws;
mod line_number;
mod micros;
mod numbers;
mod record;
mod record_error;
mod session_name;
mod start;
mod statuses;
mod texts;
mod umask;

pub use begin::Begin;
pub use directory::Directory;
pub use end::End;
pub use event::Event;
pub use exit::Exit;
pub use fields::fields_of;
pub use laws::written_fields_are_read_back;
pub use line_number::LineNumber;
pub use micros::Micros;
pub use record::{Record, read_record, record_in};
pub use record_error::{Field, RecordError};
pub use session_name::SessionName;
pub use start::Start;
pub use statuses::Statuses;
pub use umask::Umask;

/// Allocation failed.
pub use retro_path::NoMem;
