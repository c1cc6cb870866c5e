//! Rows of fields: text that people can read, and that is read back exactly.
//!
//! A row is a word and some fields, with a tab before each field. A field is a number, a text, a
//! path or a digest. Texts are bytes: control codes, `%` and all bytes outside ASCII are written as
//! `%` and two hexadecimal digits, so no field has a tab or a newline in it. Numbers are decimal,
//! and modes octal. The path of the root is an empty field.
//!
//! The functions `push_..` append a field to the text of a row, and those named `.._of` read one.
//! If allocation fails, calls return `NoMem`; a row that a failed call appends to has a part of the
//! field at its end, or nothing.
//!
//! Start reading at `fields.rt`, then `writing.rt` and `reading.rt`.
//!
//! # What is proved
//!
//! - Each `push_..` appends a tab and the text that `specs/Written.antt` defines for the value.
//! - Each `.._of` returns what `specs/Reading.antt` says that a field is, or `None` for one that
//!   isn't of its kind.
//! - A value is read back from its text (`values_are_read_back`), and a row from its fields
//!   (`rows_are_read_back`), since no text of a value has a tab or a newline
//!   (`texts_stay_in_rows`).
#![tactic(auto)]

mod fields;
mod laws;
mod paths;
mod reading;
mod writing;

pub use fields::{fields_of, rows_of};
pub use laws::{rows_are_read_back, texts_stay_in_rows, values_are_read_back};
pub use paths::path_of;
pub use reading::{digest_of, number_of, octal_of, short_number_of, signed_of, text_of};
pub use writing::{push_digest, push_number, push_octal, push_path, push_signed, push_text};

/// Allocation failed.
pub use retro_path::NoMem;
