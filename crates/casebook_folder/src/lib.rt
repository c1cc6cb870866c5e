//! The core of a restore: it brings the repaired nodes of a tree back into a folder, step by step.
//!
//! A `Folder` is what the work is done on: `look` says what it holds at a path, and `put` makes one
//! step at one path, if the path holds what it should. In contracts a folder is what it held at
//! first, as a function from paths to what is `Found` there, and the steps that were made since. At
//! each moment it is what a prefix of these steps makes of it, and so it is after a crash. A step
//! that is stopped can leave a part of its new node beside the path, which `clear` removes.
//! `Memory` is a folder in memory, which can stop at any step.
//!
//! [`plan`] says for each path in which a recorded and a repaired tree differ how the folder is to
//! it: `Ready`, `Done`, `Differs`, or `Blocked` by an `Obstacle`. [`Rows::of_plan`] takes the rows
//! for which the folder is ready: a path, what the folder holds there, and what it is to hold.
//! [`apply`] carries rows out, and [`undo`] returns the rows that lead back.
//!
//! Rows are what is kept in a file before the first step. After an interruption [`Rows::of`] takes
//! them again, [`Rows::for_plan`] tests that they are those of the plan, and `apply` goes on with
//! them.
//!
//! If allocation fails, calls return `NoMem`.
//!
//! Start reading at `folder.rt` and `found.rt`, then `planning.rt`, `rows.rt` and `restoring.rt`.
//!
//! # What is proved
//!
//! - `plan` has a row for exactly those of the given paths in which the two trees differ, in their
//!   order [`exact` of `IsPlan`]. A row has the nodes of both trees, what the folder holds, what it
//!   is to hold, and the state that follows. Mode and owner stay those of what is found, if that is
//!   of the new kind. What is behind a link or another obstacle is blocked, and so is a directory
//!   that has to go and has a child that the recorded tree doesn't have [`seen`].
//! - `Rows::of_plan` returns exactly the rows for which the folder is ready, if it is ready for
//!   each row of the plan or done with it. They begin with what the folder holds
//!   (`plans_see_the_folder`). `Rows` are in order of their paths, so each path has one at most
//!   (`rows_are_distinct`).
//! - `Rows::for_plan` returns kept rows exactly if the plan is in order, each of the rows is that
//!   of one of the plan's changes and the folder is done with all other changes. Such a row is the
//!   one that the change has, by what the row says that was there (`kept_rows_are_the_changes`).
//! - After success of `apply` the folder is the old one with the new nodes at exactly the paths of
//!   the rows [`restored`]. At each moment, also if it fails, each path holds its old or its new
//!   node, or nothing while its kind changes [`any_moment`] (`rows_restore`). No step is at a path
//!   that no row is of, nor where the folder holds something that is blocked, as it does below a
//!   link [`touched`]. If a path is neither as its row says that it was nor as it is to be, no step
//!   is made [`refused`].
//! - After success of `apply` no part of a new node is beside a path of the rows, also if an
//!   earlier run left one [`no_parts`]. No part is left beside other paths, also if it fails
//!   [`other_parts`].
//! - Each step names what its path has to hold before it. In a folder that holds what the rows say
//!   each step finds that (`steps_find_what_they_expect`).
//! - What is left of rows at any moment ends in the same folder, and its moments are those of the
//!   rows (`rows_go_on`). Undoing rows at any moment gives the old folder back, and its moments are
//!   theirs too (`rows_are_undone`).
//!
//! A folder of the real file system says nothing of what it held at first. Of it only what doesn't
//! speak of that is proved: which steps are asked for, and in which order.
#![tactic(auto)]

mod applying;
mod attributes;
mod change;
mod fitting;
mod folder;
mod folder_error;
mod found;
mod given;
mod laws;
mod made_step;
mod memory;
mod obstacle;
mod order;
mod planned_row;
mod planning;
mod ready;
mod remaining;
mod restoring;
mod row;
mod rows;
mod state;
mod undoing;

pub use attributes::Attributes;
pub use change::Change;
pub use folder::Folder;
pub use folder_error::FolderError;
pub use found::Found;
pub use given::GivenAttributes;
pub use laws::{
    kept_rows_are_the_changes, plans_see_the_folder, rows_are_distinct, rows_are_undone,
    rows_go_on, rows_restore, steps_find_what_they_expect,
};
pub use made_step::{MadeStep, push_step};
pub use memory::{Entry, Memory};
pub use obstacle::Obstacle;
pub use planned_row::PlannedRow;
pub use planning::{Trees, plan};
pub use restoring::apply;
pub use row::Row;
pub use rows::Rows;
pub use state::State;
pub use undoing::undo;

/// Allocation failed.
pub use retro_path::NoMem;
