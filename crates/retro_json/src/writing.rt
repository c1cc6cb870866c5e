//! Writes the JSON values of states and notes.
mod fields;
mod notes;
mod sessions;
mod text;
mod tree;

pub use fields::{hex_value, number_value};
pub use notes::notes_value;
pub use sessions::sessions_value;
pub use text::push_value;
pub use tree::tree_value;
