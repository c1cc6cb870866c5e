//! Tables of test rows: each row names a call, what it is given, and what it has to return.
//!
//! # The layout of a table
//!
//! - A row is a line `CALL: GIVEN :: GIVEN => WANTED`.
//! - A line `given: GIVEN :: GIVEN` is a header. A row below it that begins with `- ` has the
//!   header's fields before its own, and at least one of its own: `- CALL: GIVEN => WANTED`. So
//!   what several rows are given is written once. Other rows don't use the header.
//! - A line that begins with two or more spaces continues the line above it. One space takes the
//!   place of the break. If the line above ends in `\`, nothing takes the place of the `\` and the
//!   break. That is for texts without spaces, such as JSON and digits, and for scripts, whose lines
//!   end in `;;`. So a row is broken at a single space that no `\` precedes, or by a `\` after a
//!   comma, after `;;`, or between two bytes.
//! - What a row wants may be lines that are written as they are: behind the `=>`, with which the
//!   row's own line ends, each line begins with `| `, or is `|` if it is empty. Each ends in a
//!   newline. That is for screens.
//! - Empty lines mean nothing.
//! - In a field `%(NL)` is a newline, `%(TAB)` a tab, `%(CR)` a carriage return, `%(NUL)` the byte
//!   0, `%(ESC)` an escape, `%(BOM)` a byte order mark, `%(RLO)` the character U+202E, `%(EMPTY)`
//!   nothing, and `%(n*3)` is `nnn`.
//!
//! ```text
//! parent: /a/b => /a
//! child: /a :: b => /a/b
//!
//! given: put /d dir; put /d/f file ab
//! - state: kind /d/f => File
//! - state: canwrite /d/f 1048575 => TooLarge
//!
//! help: show =>
//! | Shows what a repair would do.
//! |
//! |   --why  why lines are run again
//! ```
//!
//! # The crates of tests
//!
//! Only crates whose names end in `_tests` use this crate. They have nothing but tests, which use
//! public items alone. What rows want comes from the profile of the shell, the formats, the limits
//! and the definitions, never from the program's own output. Most of them have tables, a function
//! that makes the call of a row (`rows.rt`), and tests that go over the rows of the tables.
//! Documents that several of them are about are here: a field may name one of them
//! (`documents.rt`).
#![tactic(auto)]

mod cells;
mod documents;
mod failure;
mod paths;
mod row;
mod row_error;
mod script;
mod table;
mod texts;

pub use cells::{cell, cell_text, value_text};
pub use documents::{AGAIN, MARKET, UNKNOWN, document};
pub use failure::fail;
pub use paths::{path, path_text};
pub use row::Row;
pub use row_error::RowError;
pub use script::script_of;
pub use table::rows;
pub use texts::{Numbered, numbered, numbers, text, utf8};
