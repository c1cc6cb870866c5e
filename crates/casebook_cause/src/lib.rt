//! What a person asks of a repair: whom to tell, and why a line was run again.
//!
//! [`has_another_result`] compares two runs of a line. [`first_failing_note`] says where the notes
//! of a line part with a state. [`Differences::cause_of`] names the line that changed the answer to
//! a query. [`leaks`] and [`tellings`] separate the compensations of a repair.
//!
//! Nothing is repaired here: everything is read from a repair and from recordings.
//!
//! If allocation fails, calls return `NoMem`.
//!
//! Start reading at `differences.rt`, then `search.rt`.
//!
//! # What is proved
//!
//! - `has_another_result` is true exactly if the outputs of two runs differ, or their changes,
//!   compared in order.
//! - `first_failing_note` returns `None` exactly if the notes hold in the view's state [`none`].
//!   Otherwise it returns an index: the notes before it hold, and the note there is a query that
//!   has another answer in the state after their changes [`some`].
//! - `Differences::of` returns two recordings: it is the two of them in contracts. `cause_of`
//!   returns the last line before a number that changes the cells of a query differently in one of
//!   them than in the other [`some`], or `None` if there is none [`none`]. If the recordings begin
//!   with the same state and the query has another answer before the line, there is a cause
//!   [`exists`]. So each line that an exact repair runs again, though its text isn't replaced, has
//!   one: its notes don't hold before it in the repaired recording
//!   (`redone_lines_have_a_failing_note`), and the first failing query has another answer there
//!   (`failing_queries_have_another_answer`). A cause is a line that the repair cancels or runs
//!   again (`causes_are_cancelled_or_redone`), and earlier than what it causes: so each chain of
//!   causes ends at an edited line.
//! - `leaks` returns the compensations of the cancelled lines, `tellings` all others,
//!   both in order. Merged in order they are the repair's compensations
//!   (`leaks_and_tellings_are_all`).
#![tactic(auto)]

mod alike;
mod another_result;
mod compensations;
mod differences;
mod differing_lines;
mod failing_note;
mod laws;
mod place;
mod search;

pub use another_result::has_another_result;
pub use compensations::{leaks, tellings};
pub use differences::Differences;
pub use failing_note::first_failing_note;
pub use laws::{
    causes_are_cancelled_or_redone, failing_queries_have_another_answer,
    leaks_and_tellings_are_all, redone_lines_have_a_failing_note,
};

/// Allocation failed.
pub use retro_tree::NoMem;
