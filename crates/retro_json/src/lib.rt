//! Reads and writes the JSON values (RFC 8259) of states and notes.
//!
//! Scripts and logs are made of these values; `retro_log` reads and writes the documents
//! themselves. A reader returns exactly the value that the definitions in `specs/` give, or a
//! refusal. If a value has several faults, the refusal is the worst of them. [`tree_value`],
//! [`sessions_value`] and [`hex_value`] return the values that `specs/Values.antt` defines, and
//! [`notes_value`] those of `specs/NoteValues.antt`.
//!
//! [`read_replacements`] reads the new texts of lines, which an option of a command line lists.
//!
//! If allocation fails, calls return `NoMem`, alone or as a variant of their error, and leave
//! borrowed arguments unchanged.
//!
//! # What is proved
//!
//! - `read_tree_rows` and `read_session_rows` read the next value of a text, and return the rows
//!   that it lists, or their worst refusal; `read_tree_row` and `read_session_row` read one row;
//!   `tree_of_rows` and `with_sessions` return the state that rows make. `notes_field` returns the
//!   notes of a line. Each is an equation with a definition over `serde_json`'s values.
//! - `read_replacements` returns the lines whose text is replaced that a text lists, or its
//!   refusal, by an equation of the same kind.
//! - `tree_value`, `sessions_value`, `notes_value` and `hex_value` return the JSON values of their
//!   definitions [`value`]; `Refusal::number` the refusal's number.
#![tactic(auto)]

mod fault;
mod reading;
mod writing;

pub use fault::{LogFault, Part, Refusal};
pub use reading::{
    OrRefusal, Row, SessionParts, both, cells, hex_field, notes_field, read_replacements,
    read_session_row, read_session_rows, read_tree_row, read_tree_rows, text, tree_of_rows, u32_in,
    with_item, with_sessions,
};
pub use writing::{hex_value, notes_value, number_value, push_value, sessions_value, tree_value};
