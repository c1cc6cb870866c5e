//! What a repair would do, as one JSON document for programs.
//!
//! [`summary_json`] writes a `Summary` of `casebook_summary`, which is also what a terminal shows of a
//! repair. Each value of the summary becomes a JSON value by a definition of its own in `specs/`, and
//! nothing is computed anew. Every object has all its keys, and what there isn't is null.
//!
//! If allocation fails, calls return `NoMem`.
//!
//! # What is proved
//!
//! - `summary_json` returns the compact text of the JSON value that `specs/Summary.antt` defines
//!   for a case and a summary, and a newline [`text`]; and `serde_json` reads the text as this value
//!   [`read`]. Each value of a summary has a definition of its own, so all of them are in the
//!   document. Both clauses are equations if the reasons of the summary are in order of lines.
#![tactic(auto)]

mod count_value;
mod effect_value;
mod group_value;
mod leak_value;
mod line_value;
mod parts;
mod restoration_value;
mod source_value;
mod summary;
mod unknown_value;
mod value;

pub use summary::summary_json;

/// Allocation failed.
pub use retro_tree::NoMem;
