//! The paths in which two trees differ.
//!
//! If allocation fails, calls return `NoMem`.
//!
//! Start reading at `tree_diff.rt`.
//!
//! # What is proved
//!
//! `changed_paths` returns exactly the paths in which two trees differ, each once and with how they
//! differ there, in order of paths [by `AreChangedPaths`].
#![tactic(auto)]

mod changed_path;
mod entries;
mod tree_diff;

pub use changed_path::{ChangedPath, PathChange};
pub use tree_diff::changed_paths;

/// Allocation failed.
pub use retro_tree::NoMem;
