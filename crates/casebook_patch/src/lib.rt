//! The difference of two trees as a patch in git's form.
//!
//! [`file_changes`] finds the files that differ, and [`patch_of`] writes their changes so that
//! `git apply` takes them, in order of paths.
//!
//! A file is text if it has no NUL and each of its lines is UTF-8. If both files at a path are
//! text, or one is and the other is missing, their change has parts with three lines of context,
//! which `patch -p1` takes too, unless a file takes the place of a directory or a directory that
//! of a file. All other changes have the binary form of git: all bytes of both files, not
//! compressed. Every file has the mode 100644. Names are quoted as git quotes them, and those with
//! spaces too.
//!
//! A patch has no directories. Programs that apply one make directories for its files, and remove
//! those whose last file goes: [`unmade_directories`] and [`unremoved_directories`] name those
//! that then aren't as in the tree after. A patch leaves out files with a NUL in their path, which
//! no program could name. Git refuses a patch that has a name `.git` in a path.
//!
//! If allocation fails, calls return `NoMem`.
//!
//! Start reading at `patch.rt`, then `part.rt`, `file_change.rt` and `written_change.rt`.
//!
//! # What is proved
//!
//! - `parts_of` returns parts that make the new lines of the old ones [`forward`], and whose
//!   opposites make the old lines of the new ones [`backward`], as `specs/Parts.antt` defines what
//!   parts make of lines. Each part says how many lines of both texts it has (`IsCounted`). That a
//!   part has three lines of context is tested.
//! - `file_changes` returns the changes of exactly the files that differ and have a name, each
//!   once and in their order [by `AreChanges`]. A change of texts has parts that make the bytes of
//!   the new file of those of the old one, and the opposite parts the old of the new
//!   (`AreBetween`). Any other change has both files.
//! - `unmade_directories` and `unremoved_directories` return exactly the directories that
//!   `specs/Directories.antt` defines.
//! - `patch_of` writes these changes as `specs/Written.antt` says, byte by byte: heads, names,
//!   parts, and the binary form of `specs/Binary.antt`. That git and `patch` read this as it is
//!   meant is tested.
#![tactic(auto)]

mod base85;
mod directories;
mod file_change;
mod lines;
mod part;
mod patch;
mod quoted;
mod written_change;
mod written_part;
mod zlib;

pub use directories::{unmade_directories, unremoved_directories};
pub use file_change::FileChange;
pub use part::{Part, parts_of};
pub use patch::{file_changes, patch_of};

/// Allocation failed.
pub use casebook_text::NoMem;
