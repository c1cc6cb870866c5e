//! The history of a recording: what was in each cell of the machine before each line, and which
//! lines wrote, read and listed what.
//!
//! A [`History`] borrows a recording and keeps the versions of each cell that its lines change.
//! [`History::value_at`] and [`History::rollback`] give the value of a cell before a line.
//! [`History::at`] gives the whole recorded state before a line: as a view that answers queries,
//! and as a source of borrowed values.
//!
//! A version is a checkpoint or a growth. A checkpoint is a whole value, and a growth appends bytes
//! to the version before it. Checkpoints aren't copied: their values are borrowed from the
//! recording. All versions of a file that grows share one buffer.
//!
//! [`History::writers`] and [`History::readers`] give the lines that write or read a cell.
//! [`History::next_use`] gives the next line that reads or writes a cell, and
//! [`History::next_meeting`] the next one that does so with one of some cells. These are look-ups
//! in an index. A listing of a directory reads the cell of each child, also of children that never
//! existed.
//!
//! If allocation fails, calls return `NoMem` and leave their arguments unchanged.
//!
//! Start reading at `history.rt`, then `cell_history.rt`, `track.rt` and `uses.rt`, then `at.rt`.
//!
//! # What is proved
//!
//! - `History::of` returns the history of a recording: it is that recording in contracts, and each
//!   call is an equation on its lines. `recorded_before` (of `retro_keep`) is the state after all
//!   lines with numbers below one: the state before that line (`recorded_states_follow_the_lines`).
//! - `value_at` returns, and `get` borrows, the value of a cell in that state. `entry_at` and
//!   `names_at` return the state's answers about a user and a directory. `at` is the state as a
//!   view, so that it answers every query as the state does, and lends the value of each cell.
//! - `checkpoints` returns the numbers of the versions of a cell that are kept whole
//!   (`specs/Versions.antt`), which rise from 0 (`checkpoints_rise`). `rollback` returns the last
//!   checkpoint below a number [`from`] with the growths between it and the number [`rule`], which
//!   is the recorded value [`value`] (`versions_give_the_recorded_values`).
//! - `writers` and `written_by` give the lines whose notes change a cell, `readers` those with a
//!   query whose answer can depend on it, and `listed_by` those that list a directory: each
//!   exactly, in order (`specs/Index.antt`). `next_use` returns the least number above another of a
//!   line that reads or changes a cell, or `None` if there is no such line, and `next_meeting` and
//!   `next_meeting_in` that of a line that does so with one of some cells. A listing reads the cell
//!   of each child, also of one that never existed.
#![tactic(auto)]

mod at;
mod boxed_history;
mod cell_histories;
mod cell_history;
mod history;
mod index;
mod laws;
mod line_cells;
mod line_numbers;
mod line_use;
mod path_lines;
mod place;
mod rising;
mod rolled;
mod track;
mod uses;
mod version;
mod version_ref;

pub use at::At;
pub use history::History;
pub use laws::{
    checkpoints_rise, recorded_states_follow_the_lines, versions_give_the_recorded_values,
};
pub use rolled::Rolled;
