//! What is said of a document that isn't in order.
//!
//! Of a log that isn't as its lines run, `retro_keep` finds the first line that isn't
//! ([`Unlike`](retro_keep::Unlike)). [`unlike_lines`] shows it: the first note that differs, as the
//! log has it and as the line notes it, or what the line printed.
//!
//! Of a document that is refused, `retro_log` says which rule it breaks. [`place_in_log`] and
//! [`place_in_script`] look in the document for a value that breaks it: the first item of a list, a
//! key, or the value of a key. What they answer is such a place, as `specs/Place.antt` defines it;
//! where they know nothing narrower, it's the whole document. [`push_place`] says a place in words.
//!
//! If allocation fails, calls return `NoMem`.
//!
//! Start reading at `unlike.rt` and `finding.rt`.
//!
//! # What is proved
//!
//! - `first_difference` returns the index of the first note that two lists don't have alike, or
//!   `None` exactly if they are the same.
//! - `unlike_lines` returns the lines that `specs/Texts.antt` defines: which line it is, and the
//!   first note that differs, as the log and as the run have it, or else both outputs.
//! - `place_in_log` and `place_in_script` return a place in the bytes where they break the rule of
//!   the refusal that they are given, as `specs/Place.antt` defines it [by `IsPlace`]: the first
//!   item of its list whose own reading gives that refusal; the first line whose number is too
//!   small; the first line with a session that isn't listed; the first session whose number is
//!   listed before it; a key that such a document can't have; the first key that it lacks; a key
//!   whose value as a whole is refused so; or the end of the longest front of the bytes that is
//!   UTF-8. Any call may answer `Document`, which says nothing.
//! - A byte at which a text stops to be JSON is named only if the text isn't a JSON value; that
//!   reading stopped there is only tested. So is it that a narrower place than `Document` is found,
//!   and that of several keys which don't belong there the first in the text is named.
//! - `push_place` appends the words that `specs/Words.antt` defines for a place.
#![tactic(auto)]

mod finding;
mod items;
mod key;
mod kind;
mod lawless;
mod members;
mod note_lists;
mod numbers;
mod place;
mod sessions;
mod stops;
mod unlike;
mod versions;
mod words;

pub use finding::{place_in_log, place_in_script};
pub use key::Key;
pub use note_lists::first_difference;
pub use place::{Item, Place};
pub use unlike::unlike_lines;
pub use words::push_place;

/// Allocation failed.
pub use retro_tree::NoMem;
