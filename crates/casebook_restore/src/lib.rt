//! The way from a repair back into a folder: what would change there, in rows and in words.
//!
//! A [`RestoreTask`] says from which tree to which a folder is brought, where in them it is, and
//! which paths are chosen. [`plan_restore`] looks at the folder and returns a [`RestorePlan`], and
//! [`plan_lines`] says it to people. The rows of a plan are carried out by `casebook_folder`.
//!
//! If allocation fails, calls return `NoMem`, alone or as a variant of their error.
//!
//! Start reading at `task.rt` and `planning.rt`, then `words.rt`.
//!
//! # What is proved
//!
//! - A plan has a row for exactly those paths in which the two trees differ, which are below the
//!   folder's and chosen, and at which the repaired tree has what is kept, each once and in order of
//!   paths [`paths` of `IsRestorePlan`]. Each row is the change of its path by what the folder holds
//!   there [`planned`, and `seen`]. The paths at which the repaired tree has a text that stands for
//!   something else are named [`unkept`], so that text is never written. The paths outside of the
//!   folder are counted, and so are those that aren't chosen.
//! - The words of a plan are an equation (`specs/Words.antt`): the counts, a line for each row, and
//!   how to read them. All lines are harmless on a terminal, as they are `SafeLine`s.
#![tactic(auto)]

mod attribute_words;
mod carrying;
mod choosing;
mod obstacle_words;
mod placed;
mod planning;
mod row_plans;
mod row_words;
mod task;
mod words;

pub use carrying::{carry_out, rows_of};
pub use placed::PlacedFolder;
pub use planning::plan_restore;
pub use row_plans::plan_rows;
pub use task::{RestorePlan, RestoreTask, UnkeptPath};
pub use words::plan_lines;

/// Allocation failed.
pub use retro_path::NoMem;
