//! Reads the documents of snapshots.
//!
//! [`read_snapshot`] reads what `write_snapshot` of `casebook_snapshot_json` writes: a
//! [`SnapshotDocument`] has the snapshot, the path of the folder in it, the folder's own name and
//! the time. A text with any fault is refused, by a [`SnapshotFault`] that says where. The path of
//! the folder is that of the first row of `attributes`.
//!
//! Nothing is known of the mode and the owner of a directory above the folder. In the snapshot it
//! has those that a `Placed` listing gives it, 755 and root. A name that is skipped may be longer
//! than 255 bytes.
//!
//! A document costs time in proportion to its length, times the logarithm of its rows. Its text,
//! its JSON value and its tree are in memory at the same time.
//!
//! If allocation fails, calls return `NoMem`, alone or as a variant of their error.
//!
//! Start reading at `document.rt`, then `members.rt`, `rows.rt` and `joining.rt`.
//!
//! # What is proved
//!
//! `read_snapshot` returns the document that bytes are, or the fault that applies first, by an
//! equation with a definition over `serde_json`'s values (`specs/Documents.antt`):
//!
//! - The value is an object with exactly the keys of a snapshot and version 1
//!   (`specs/Members.antt`), and each row of each list is one (`specs/Rows.antt`). Otherwise the
//!   fault names the first row that isn't.
//! - The rows of the snapshot are the entries of the tree, which is lawful as that of a script is,
//!   in order of their paths. There are as many rows of attributes as paths of the folder, which is
//!   a directory, and each of these paths has the mode and the owner of its row
//!   (`specs/Joined.antt`).
//! - What is skipped is in the document's order.
//!
//! `written_rows_read_back` states that the rows of each list are read back from the values that
//! `write_snapshot` writes them as, if paths have no NUL, modes have 12 bits, and files are within
//! the limit.
//!
//! `written_documents_read_back` states that the text that `write_snapshot` writes of a snapshot is
//! the document of that snapshot, with the path of its folder, the folder's own name and the time.
//! So `read_snapshot` returns that document, unless allocation fails. Its premises are those of the
//! rows, and these (`IsReadable` in `specs/ReadBack.antt`):
//!
//! - The rows are a lawful tree, in order of their paths, and no path occurs twice.
//! - The folder is a directory of the tree. Each other path is below it, or is a directory above it
//!   with the mode 755 and the owner 0.
//! - The names in paths, the folder's own name and the time are UTF-8.
#![tactic(auto)]

mod document;
mod fault;
mod joining;
mod laws;
mod lists;
mod members;
mod paths;
mod reasons;
mod rows;

pub use document::{SnapshotDocument, read_snapshot};
pub use fault::{Part, SnapshotFault};
pub use laws::{written_documents_read_back, written_rows_read_back};

/// Allocation failed.
pub use retro_path::NoMem;
