//! Text that people are shown: safe display, HTML, lists of lines, and diffs.
//!
//! The bytes of a log are partly an intruder's. `safe` makes of any bytes a text that is harmless
//! in a terminal, and `escape` makes of a text one that is harmless in a page. In contracts bytes
//! and texts are lists of bytes, and a character is its code point.
//!
//! If allocation fails, calls return `NoMem`.
//!
//! # What is proved
//!
//! - `safe` returns the text that `specs/SafeText.antt` makes of bytes, for any bytes [`value`].
//!   Each of its characters is harmless, or a newline or a tab that is kept [`characters`]; no byte
//!   is a control code of ASCII but these two [`bytes`]; printable ASCII is shown as itself
//!   [`ascii`]. What is shown stands for the bytes, and so for no others [`original`]. With
//!   `Breaks::Words` spaces are shown by their code too.
//! - A `SafeLine` has harmless characters alone [`safe` of `as_str`], and so no newline and no tab.
//!   Each call that appends to it says what it appends. If memory runs out, `push_spaces` and
//!   `push_remark` may have appended a part, and all other calls nothing.
//! - `text_of_lines` returns the lines with a newline after each [`value`]. No byte of it is a
//!   control code but these newlines [`bytes`], each character is harmless or one of them
//!   [`characters`], and splitting the text at newlines gives the lines [`lines`]. So no line can
//!   look like two.
//! - `text_of_rows` returns rows of fields with a tab between fields and a newline after each row
//!   [`value`], with the same promises [`characters`, `bytes`]; splitting at newlines gives the
//!   rows [`rows`], and splitting a row at tabs its fields, if it has any [`fields`].
//! - `hunks` returns the parts of a diff: exactly the lines at most so many lines from one that is
//!   in one text alone are in a part [`exact`], the parts come in order with lines between them
//!   [`apart`], and the numbers that they say are those of their lines in both texts [`counts`].
//! - `list_of_numbers` returns the decimal numbers with commas between them.
//! - `escape` returns a text with its escapes in HTML [`value`]. The result has no `<`, `>` or
//!   quote [`no_markup`], and its character references stand for the text [`unescapes`].
//! - `lines_of_list` returns the numbers of the lines that a list names, or the fault of its first
//!   item that has one, with its place (`specs/Lists.antt`). `list_of_file` returns the list that a
//!   file's text holds. Both are equations.
//! - `diff` returns lines with marks: those marked `Same` and `Removed` are the old text [`old`],
//!   those marked `Same` and `Added` the new one [`new`], and equal texts have no other mark than
//!   `Same` [`equal`]. Nothing says how short a diff is.
#![tactic(auto)]

mod chosen_lines;
mod common_lines;
mod html;
mod hunk;
mod item;
mod line_diff;
mod line_set;
mod list;
mod list_fault;
mod list_file;
mod number_list;
mod safe_line;
mod safe_text;
mod shown_lines;
mod shown_rows;
mod splitting;

pub use html::escape;
pub use hunk::{Hunk, Span, hunks};
pub use line_diff::{Mark, diff};
pub use list::lines_of_list;
pub use list_fault::{ItemFault, ListFault};
pub use list_file::list_of_file;
pub use number_list::list_of_numbers;
pub use safe_line::SafeLine;
pub use safe_text::{Breaks, safe};
pub use shown_lines::text_of_lines;
pub use shown_rows::text_of_rows;

/// Allocation failed.
pub use std::alloc::AllocError as NoMem;
