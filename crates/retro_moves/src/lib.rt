//! Removing and moving directories with everything below them, over a `Local`.
//!
//! `remove` is `rm` of one path, with `-r` or without. `move_dir` is `mv` of a directory, once its
//! tests have passed. Each queries one path at a time and puts one node at a time. Its clause
//! `means` gives the whole tree after it: without a path, or with a path moved
//! (`specs/Trees.antt`). `removals_of_files` and `moves_of_files` say what that is for a file.
//!
//! If allocation fails, calls return `NoMem`. The `Local` then has its earlier notes and maybe
//! some later ones, which hold.
//!
//! # What is proved
//!
//! - `remove` leaves the tree without a path and everything below it, or unchanged if the path is a
//!   directory and the removal isn't recursive; `move_dir` leaves the tree with a directory moved
//!   [`means`]. Which queries a recursive removal and `move_dir` ask, and in which order, is proved
//!   too [`notes`], for `move_dir` over a view of a lawful state.
#![tactic(auto)]

mod laws;
mod moving;
mod removal;

pub use laws::{moves_of_files, removals_of_files};
pub use moving::move_dir;
pub use removal::remove;
