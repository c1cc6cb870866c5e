//! Reads the JSON values of states and notes.
mod asked;
mod fields;
mod hex_text;
mod made;
mod notes;
mod path;
mod replacements;
mod sessions;
mod shape;
mod tree;
mod worst;

pub use fields::hex_field;
pub use notes::notes_field;
pub use replacements::read_replacements;
pub use sessions::{Row, SessionParts, read_session_row, read_session_rows, with_sessions};
pub use shape::{cells, text, u32_in};
pub use tree::{read_tree_row, read_tree_rows, tree_of_rows};
pub use worst::{OrRefusal, both, with_item};
