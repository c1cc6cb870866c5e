//! JSON values (RFC 8259) of a text, read one after another.
//!
//! A document's long lists needn't be in memory as a whole: [`begins_array`] enters a list, and
//! [`next_item`] reads one item, whose texts are borrowed from the document. What is read is the
//! same as `serde_json` reads: of a key that occurs twice the last value counts, and a text with a
//! number too large for a float is refused. Contracts name a value by its data (`value_data`
//! of `specs/Borrowed.antt`), and a reader by the tokens that are left.
//!
//! If allocation fails, calls return `NoMem` as a variant of their error.
//!
//! # What is proved
//!
//! - `read_value`, `next_item`, `begins_array`, `begins_object` and `pass_value` take from the
//!   tokens that are left the value, the item or the bracket with which they begin, as `serde_json`
//!   defines it, or fail with `NotJson` only if there is none [`value`, `not_json`]. `read_whole`
//!   returns the value that a text is.
#![tactic(auto)]

mod error;
mod list;
mod look;
mod number;
mod range;
mod skip;
mod value;
mod whole;

pub use error::ReadError;
pub use list::{begins_array, begins_object, next_item};
pub use look::{is_null, items_in, text_in};
pub use number::{is_number_in_range, unsigned_in};
pub use skip::pass_value;
pub use value::read_value;
pub use whole::{DEPTH, read_whole};
