//! Queries, answers and differences in words, for people.
//!
//! [`push_query`], [`push_answer`], [`push_change`] and [`push_note`] say what a line read and
//! wrote, [`push_path`] a path, and [`push_cut`] bytes up to a limit. [`push_difference`] says how
//! two answers to a query differ. [`FileLines`] has the lines of a file before and after, and
//! merges them. [`obstacle_text`] and [`obstacles_text`] say why it isn't known what one line does,
//! and what several do.
//!
//! All that is appended is a `SafeLine`, so no byte of a log gets into it but as `casebook_text`
//! shows it. In contracts a line is the list of its bytes.
//!
//! If allocation fails, calls return `NoMem`.
//!
//! # What is proved
//!
//! - `push_query`, `push_answer`, `push_change`, `push_note`, `push_path`, `push_count`, `push_cut`
//!   and `push_first_line` append the words that `specs/Words.antt` and `specs/Cut.antt` define,
//!   and nothing else. If memory runs out, they may have appended a part.
//! - `push_difference` appends the words of `specs/Difference.antt`: of two files the first line
//!   that differs, of two listings the first name that one lacks, and else both answers. The first
//!   line is the first: all lines before it are the same, those at it aren't, and there is none
//!   only if all lines are the same (`first_differences_are_first`).
//! - `FileLines::of`, `FileLines::of_bytes` and `shown_lines` return the lines of texts as they are
//!   shown; a last line without a newline says so (`specs/FileLines.antt`). The lines of a text
//!   make it, and no line has a newline inside (`lines_make_the_text`). Of `merged` lines those
//!   marked `Same` and `Removed` are the old text's [`old`], those marked `Same` and `Added` the
//!   new one's [`new`], and equal texts have no other mark than `Same` [`equal`]. `count_added` and
//!   `count_removed` count marks.
//! - What all these return is a `SafeLine`, so its characters are harmless.
#![tactic(auto)]

mod answer_words;
mod common_front;
mod cut;
mod difference;
mod file_lines;
mod first_line;
mod first_name;
mod laws;
mod note_words;
mod obstacle_words;
mod path_words;
mod query_words;

pub use answer_words::{push_answer, push_count};
pub use cut::{push_cut, push_first_line};
pub use difference::push_difference;
pub use file_lines::{FileLines, count_added, count_removed, shown_lines};
pub use laws::{first_differences_are_first, lines_make_the_text};
pub use note_words::{push_change, push_note};
pub use obstacle_words::{obstacle_text, obstacles_text};
pub use path_words::push_path;
pub use query_words::push_query;

/// Allocation failed.
pub use casebook_text::NoMem;
