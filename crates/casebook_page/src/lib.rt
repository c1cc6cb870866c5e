//! The page of a repair: one HTML file that a person reads in a browser.
//!
//! [`page`] returns it. It is a function of what it shows alone: it has no time at which it was made.
//! It is written as `Html` of `casebook_html`.
//!
//! If allocation fails, calls return `NoMem`.
//!
//! Start reading at `document.rt`, then `head.rt`, `tell.rt` and `row.rt`.
//!
//! # What is proved
//!
//! - What the pieces of a page tell is exactly what `specs/Told.antt` says of the repair, in order
//!   [by `IsPage` of `casebook_html`]: so no path, line, session or count is left out, invented, or
//!   told twice, and what somebody saw stands before what they would have seen. Excerpts of files and
//!   outputs tell nothing, and neither do widths, columns and bars.
//! - That an excerpt is part of its text isn't proved.
#![tactic(auto)]

mod block;
mod cancelled;
mod contents;
mod document;
mod head;
mod lines;
mod merged_texts;
mod overview;
mod pair;
mod restore;
mod row;
mod session_lines;
mod shown;
mod tell;
mod text_line;
mod unknown;
mod why;

pub use contents::Contents;
pub use document::page;

/// Allocation failed.
pub use casebook_text::NoMem;
