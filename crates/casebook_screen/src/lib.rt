//! What a terminal shows: rows of a recording, summaries of repairs, reasons and diffs.
//!
//! [`row_lines`], [`row_table`] and [`row_numbers`] show rows as text, as a table and as numbers.
//!
//! [`summary_lines`] shows a summary of `casebook_summary`, which says what a repair would do: which
//! lines aren't understood, how many lines have which fate, what is to be restored, whom to tell
//! about what, which cancelled lines showed something, and what each edited line read and led to. If
//! a recorder saw the lines on a machine, it says which ones have to be run there for real in place
//! of which ones aren't understood, and who looked at something by these. Rows mark the lines that
//! stand as they were observed with an `o`.
//!
//! [`why_lines`] says why lines are run again, [`diff_lines`] shows what changes as unified diffs,
//! and [`detail_lines`] shows one line in full.
//!
//! All that is shown is a `SafeLine`, so no byte of a log gets into it but as `casebook_text` shows
//! it. In contracts a line is the list of its bytes. All but tables and diffs is written as
//! [`Piece`]s: numbers and texts say something of the recording and its repair, and are told; ends of
//! lines, spaces, and words, which have no digits, only say how it looks.
//!
//! If allocation fails, calls return `NoMem`.
//!
//! Start reading at `screen.rt`, then `summary.rt` and `specs/Told.antt`.
//!
//! # What is proved
//!
//! - `row_lines`, `summary_lines`, `why_lines` and `detail_lines` return lines that are the texts of
//!   some pieces, and what these tell is exactly what `specs/Rows.antt`, `specs/Told.antt` and
//!   `specs/Why.antt` say of the rows, the summary, and the line with a number, in order [by
//!   `IsScreen`]: so no number, path, name, time or text is left out, invented, swapped or told
//!   twice. Lists that are cut say so.
//! - `row_table` and `row_numbers` return the fields that `specs/Fields.antt` defines, and the
//!   numbers of the rows, in order: an equation each.
//! - `diff_lines` returns a unified diff for each path with a file before or after, and one for
//!   each output that differs, in order [by `AreDiffs`]. The lines marked ` ` and `-` are the old
//!   text, and those marked ` ` and `+` the new one; each head counts the lines of its part;
//!   exactly the lines at most three from one that differs are shown [by `IsUnified`]. Texts are
//!   compared as they are shown, with a remark after a last line without a newline.
//! - What all these return are `SafeLine`s, so their characters are harmless.
#![tactic(auto)]

mod causes;
mod counts;
mod detail;
mod diff_text;
mod head;
mod leaked;
mod lines;
mod names;
mod piece;
mod reads;
mod restore;
mod rows;
mod screen;
mod shown;
mod summary;
mod table;
mod tell;
mod unified;
mod unknown;
mod why;
mod written;

pub use detail::detail_lines;
pub use diff_text::diff_lines;
pub use names::Names;
pub use piece::Piece;
pub use rows::row_lines;
pub use summary::summary_lines;
pub use table::{row_numbers, row_table};
pub use why::why_lines;

/// Allocation failed.
pub use casebook_text::NoMem;
