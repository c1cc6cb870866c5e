//! What a repair would do, as values for people and programs.
//!
//! A [`Summary`] says it of a `Case` of `casebook_view`: the fate of each line and why each is run
//! again that is, the paths to restore and how much of each, the [`Notice`]s to people, by session and
//! by what they are about, the [`Leak`]s, and the [`Effect`] of each cancelled or replaced line. All
//! writers are handed the same summary.
//!
//! Lines of which Retro's shell knows nothing are named. Their output is Retro's own, so it makes no
//! notice and no leak. A path is doubtful if such a line wrote to it. What a line showed that has to
//! be run for real isn't known either, and whoever looked may have seen what is wrong ([`looks`]).
//!
//! If allocation fails, calls return `NoMem`.
//!
//! Start reading at `summary.rt`, then `notice.rt`, `effect.rt` and `restoration.rt`.
//!
//! # What is proved
//!
//! - `Summary::of` returns what a repair would do, if the lines of the repair are in order
//!   [`summary`, by `IsSummary`]: the results of the calls below for this repair. What else it
//!   counts is in `specs/Counts.antt`.
//! - `subject_line`, `why_line`, `obstacle_words` and `played_words` return the words of
//!   `specs/Words.antt`, which all writers for people use.
//! - `restorations` returns exactly the paths in which the final trees of the recording and of the
//!   repair differ, each once, with how it differs and how much: a directory or an empty file that
//!   comes or goes, a file that becomes a directory or the other way, or how many lines a diff of the
//!   two files adds and removes [by `IsExtent`]. Exactly those are doubtful to which a line wrote, in
//!   one of the two recordings, that isn't understood.
//! - Of the paths that don't differ a summary names exactly the ones that a line wrote that has to be
//!   run for real [by `AreUndecided`].
//! - `leaks_of` returns what the compensations of cancelled lines say, and `notices` what all
//!   others say, but for lines that aren't understood: an equation each. So by
//!   `leaks_and_tellings_are_all` each compensation of a line that is understood is in one of them.
//!   `looks` returns a notice for exactly each line that has to be run for real, in order.
//! - `effects` returns the lines that are cancelled, and those that are run again since an edit
//!   replaces their text, in order. Of each it names the other lines that are run again and whose
//!   chains of causes end there, the paths whose contents it read, and the paths that it wrote.
//! - `grouped` returns a group for each session and subject that notices have, in order of sessions
//!   and then of first lines, with the numbers of all its lines in order: an equation
//!   (`specs/Groups.antt`).
#![tactic(auto)]

mod doubt;
mod effect;
mod group;
mod group_lines;
mod grouping;
mod leak;
mod led_lines;
mod notice;
mod path_set;
mod reads;
mod restoration;
mod saying;
mod sessions;
mod subject;
mod summary;

pub use effect::{Effect, effects};
pub use group::Group;
pub use grouping::grouped;
pub use leak::{Leak, leaks_of};
pub use notice::{Notice, looks, notices};
pub use reads::paths_read;
pub use restoration::{Extent, LineCounts, Restoration, restorations};
pub use saying::{obstacle_words, played_words, subject_line, why_line};
pub use sessions::{sessions_of, sessions_told};
pub use subject::Subject;
pub use summary::Summary;

/// Allocation failed.
pub use retro_tree::NoMem;
