//! Compares a recording with a folder: does it explain what the folder holds?
//!
//! [`compare`] finds the paths in which a recorded tree and a snapshot of a folder differ, and
//! [`comparison_lines`] says it to people, with the last lines that wrote to each of them.
//!
//! A snapshot tells nothing of what it skipped, nor of what isn't below the path at which the
//! folder is put. So these paths aren't compared, but those that are recorded and were skipped are
//! named, unless what is recorded stands for a link, a device or a file that isn't kept.
//!
//! If allocation fails, calls return `NoMem`.
//!
//! Start reading at `comparing.rt`, then `coverage.rt` and `words.rt`.
//!
//! # What is proved
//!
//! - `compare` names exactly the paths in which the recorded tree and the folder differ, of those
//!   of which the snapshot tells what is there, each once and with how they differ, in order of
//!   paths [`different` of `IsComparison`]. It counts the paths of the folder that are as recorded
//!   [`same`], names the recorded ones that the snapshot skipped [`unread`], and returns the
//!   folder's tree [`folder`].
//! - `comparison_lines` returns the lines of `specs/Words.antt`. Each is a `SafeLine`, so its
//!   characters are harmless.
#![tactic(auto)]

mod comparing;
mod comparison;
mod coverage;
mod unread;
mod words;

pub use comparing::{compare, snapshot_tree};
pub use comparison::Comparison;
pub use unread::UnreadPath;
pub use words::comparison_lines;

/// Allocation failed.
pub use retro_tree::NoMem;
