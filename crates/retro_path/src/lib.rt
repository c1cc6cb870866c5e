//! Texts, names of files and variables, and paths.
//!
//! A path is the list of the names from the root to a file or directory. `Name::of`, `Path::of` and
//! `VarName::of` return a value exactly if the rule of its type holds, and the type keeps the rule
//! from then on. In contracts a text and a name are the list of their bytes, and a path and a
//! listing are lists of such lists. Texts, names and paths are ordered as these lists.
//!
//! `resolve` computes the path that a text names from a directory, from the text alone.
//!
//! If allocation fails, calls return `NoMem` and leave borrowed arguments unchanged.
//!
//! # What is proved
//!
//! - `resolve` returns the path that a text names, or that it is empty, or that it has a name that
//!   is too long. A text that isn't relative resolves alike in every directory
//!   (`resolve_ignores_the_directory`).
//! - `Path::of`, `Name::of` and `VarName::of` return a value exactly if the rule of its type holds.
//!   Every other call is an equation on lists.
#![tactic(auto)]

mod bytes;
mod listing;
mod name;
mod names;
mod order;
mod path;
mod resolving;
mod text;
mod var_name;

pub use bytes::Bytes;
pub use listing::Listing;
pub use name::{NAME_LIMIT, Name};
pub use names::Names;
pub use path::Path;
pub use resolving::{Resolved, is_relative, resolve, resolve_ignores_the_directory};
pub use text::Text;
pub use var_name::VarName;

/// Allocation failed.
pub use std::alloc::AllocError as NoMem;
