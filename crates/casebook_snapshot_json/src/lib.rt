//! Writes snapshots as documents.
//!
//! The document of a snapshot is one JSON object, on one line:
//! `{"attributes":[[path,mode,uid,gid],..],"root":"..","skipped":[[path,reason],..],"snapshot":1,
//! "taken":"..","tree":[..]}`. Its keys are in byte order. `tree` is the tree of a script.
//! `attributes` has the mode and the owner of each path of the tree that is the folder or below it.
//! Nothing is known of the directories above the folder.
//!
//! A skipped name that isn't UTF-8 has a row of three, `[directory,reason,hex]`, with the bytes of
//! the name as hexadecimal digits.
//!
//! If allocation fails, calls return `NoMem`.
//!
//! Start reading at `document.rt`, then `lists.rt` and `values.rt`.
//!
//! # What is proved
//!
//! `write_snapshot` returns the text that `specs/Documents.antt` defines.
#![tactic(auto)]

mod document;
mod lists;
mod values;

pub use document::write_snapshot;
pub use values::reason_text;

/// Allocation failed.
pub use retro_path::NoMem;
