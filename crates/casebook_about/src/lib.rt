//! What is known of a log beside its documents: who typed in which session, and when.
//!
//! [`read_about`] reads it from an about document: JSON (RFC 8259) of an object with `"about": 1`,
//! with `"sessions"`, rows that begin with a session's number and the name of its user, and with
//! `"lines"`, rows that begin with a line's number and a time in seconds since the start of 1970
//! (UTC). Both may be missing, further cells and keys don't count. [`time_text`] shows a time
//! to people, [`instant_text`] writes one in a document, [`second_of`] reads one, and
//! [`last_second_of`] reads its last second. [`Labels`] has the names of sessions and the times of
//! lines, wherever they come from, and shows them.
//!
//! If allocation fails, calls return `NoMem`, or it is a variant of their error.
//!
//! # What is proved
//!
//! - `read_about` returns all rows of sessions and of lines that an about document has, in order,
//!   or why the text is none: the first fault of the value, of its parts, of the rows of sessions
//!   and of the rows of lines, in this order, with the part and the place of a row
//!   (`specs/About.antt`, `specs/Rows.antt`).
//! - `time_text` returns a text in which `jiff` shows the instant in the form `%b %d %H:%M`
//!   (`specs/Time.antt`). That it is the text which people expect is only tested. `instant_text`
//!   does the same in the form `%Y-%m-%dT%H:%M:%SZ`.
//! - `second_of` returns the second of the instant that a text names as `jiff` reads it: with an
//!   offset of its own, or in UTC, or as a date's first second in UTC (`specs/Time.antt`).
//! - `last_second_of` returns the last second of such a time: in UTC a date lasts a day, a time of
//!   day without minutes an hour, and one without seconds a minute (`specs/Time.antt`).
//! - `Labels` keeps the last name of each session and the last time of each line: equations on
//!   finite maps (`specs/Labels.antt`). `name_of` and `time_of` show them as a `SafeLine`, and
//!   `is_named` says whether a session is called like this.
#![tactic(auto)]

mod about;
mod fault;
mod label_map;
mod labels;
mod rows;
mod time;

pub use about::{About, read_about};
pub use fault::{AboutFault, Part};
pub use labels::Labels;
pub use rows::{LineTime, SessionUser};
pub use time::{TIME_FORMAT, instant_text, last_second_of, second_of, time_text};

/// Allocation failed.
pub use casebook_text::NoMem;
