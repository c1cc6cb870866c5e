//! What a log says and what a repair does with its lines, as values.
//!
//! [`rows`] returns the lines of a recording that pass [`Filters`], each with what it read and
//! wrote, and with why it isn't understood if it isn't.
//!
//! A [`Source`] says where the lines come from. They were played in Retro's shell, or a recorder
//! saw them on a machine ([`Seen`]). Of the latter some stand as they were observed, whatever
//! Retro's shell does with their texts; each other one did there what it does in Retro's shell. No
//! recorded text is tested of such lines.
//!
//! A [`Case`] is a recording with its repair. [`CaseLines`] has its lines in order of their numbers,
//! and says of each what becomes of it, and why it is run again if it is: [`Why`] tells three reasons
//! apart. [`answers_of`] returns both answers to a query that is the reason.
//!
//! [`unknown_in`] names the lines of which Retro's shell knows nothing, with why they aren't
//! understood. Of lines that a recorder saw, an observed one counts among them only if a repair
//! runs it again: what it would do isn't known until a shell on a machine runs it.
//!
//! No line is run: everything is read from recordings and repairs. For it the lines of both
//! recordings are compared, and the history of the repaired one is made.
//!
//! If allocation fails, calls return `NoMem`.
//!
//! Start reading at `case.rt`, then `case_lines.rt`, `fate.rt` and `reason.rt`.
//!
//! # What is proved
//!
//! - `rows` returns exactly the lines of a recording for which all filters hold (`passes` of
//!   `specs/Filters.antt`), in order. A row names each path about which a note asks and each write
//!   of a note, once, in the order in which they first occur (`row_of` of `specs/Rows.antt`).
//!   Whether a file can be written counts only if it can't. Of lines that a recorder saw, exactly
//!   those that stand as they were observed have an obstacle (`unknown_of`).
//! - `Case::of` returns a recording with its repair, the edits and the source: it is the four of
//!   them in contracts, and its type keeps that its differences and its history are theirs.
//!   `Case::cause_of` returns the last line before another one that changes differently what a
//!   query asks about, or says that there is none [by `IsCauseOf`].
//! - The numbers of `CaseLines` rise: its type keeps that, so `CaseLines::at` finds the line with a
//!   number, or says that there is none.
//! - `CaseLines::of` says of each line of a recording what a repair does with it, if the repair has a
//!   verdict on each of them, in order, as each repair has [by `AreLines` of `specs/Lines.antt`]. A
//!   line that is run again has another result exactly if its outputs or its changes differ. Its
//!   reason is that an edit replaces the line's text, exactly if one does. Else it names the first
//!   recorded note that doesn't hold in the repaired state before the line, and the last earlier
//!   line that changes differently what that note asks about, or says that there is none. If all
//!   notes hold, it is that the line is run again with all others. A line without a cause is its own
//!   origin; another line's origin is that of its cause, or the cause itself if that isn't run again.
//!   A line has an obstacle exactly if it is among the ones that it is told of.
//! - `CaseLines::chain` follows causes, as many times as there are lines at most.
//! - `answers_of` returns the query of a reason with the noted answer and with the answer in the
//!   repaired state before the line, after the changes that the line made before the query.
//! - `unknown_in` returns the lines that aren't understood, and the replaced ones whose new text
//!   isn't, in order of numbers [by `specs/Unknown.antt`]. Of lines that a recorder saw, the former
//!   are exactly those that stand as they were observed and that the repair ran again with their
//!   own texts (`lines_to_run`).
#![tactic(auto)]

mod case;
mod case_line;
mod case_lines;
mod case_obstacles;
mod fate;
mod filters;
mod line_row;
mod line_rows;
mod line_test;
mod new_texts;
mod note_paths;
mod numbers;
mod observed;
mod obstacles;
mod other_answer;
mod path_test;
mod path_write;
mod reason;
mod source;
mod to_run;
mod unknown;
mod why;

pub use case::Case;
pub use case_line::CaseLine;
pub use case_lines::CaseLines;
pub use casebook_profile::{Obstacle, UnknownLine};
pub use fate::Fate;
pub use filters::Filters;
pub use line_row::LineRow;
pub use line_rows::rows;
pub use line_test::LineTest;
pub use note_paths::{read_paths, writes_of, written_path, written_paths};
pub use obstacles::Obstacles;
pub use other_answer::{OtherAnswer, answers_of};
pub use path_test::PathTest;
pub use path_write::{PathWrite, WriteKind};
pub use reason::{Reason, failing_ask};
pub use source::{Seen, Source};
pub use unknown::unknown_in;
pub use why::Why;

/// Allocation failed.
pub use retro_tree::NoMem;
