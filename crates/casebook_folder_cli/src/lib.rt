//! The words of the command line that are about folders, and their answers.
//!
//! A program names [`snapshot_command`] among its commands, makes a [`SnapshotRequest`] of what the
//! command is given, and answers it by [`snapshot_answer`] over its [`Folders`]. It does the same
//! with [`compare_command`] and [`compare_answer`], for a recording and the same request. Of
//! [`script_command`] it makes a [`ScriptRequest`], reads the files that it names, and answers it
//! by [`script_answer`]. With
//! [`restore_command`] it makes a [`RestoreRequest`] or an [`UndoRequest`], which are answered by
//! [`restore_answer`], from a recorded tree to a repaired one, and by [`undo_answer`].
//!
//! If allocation fails, calls return `NoMem`, alone or as a variant of their error.
//!
//! Start reading at `folders.rt`, `request.rt`, `answer.rt`, `comparing.rt`, `scripting.rt` and
//! `restoring.rt`.
//!
//! # What is proved
//!
//! - What the words of a command ask for is an equation [`snapshot_in`].
//! - `snapshot_at` takes a snapshot of any listing that is put at a path [`IsSnapshotAt`]: of a
//!   listing whose root isn't a directory it takes none.
//! - The answer is the document of a snapshot of the folder that is asked for, at its path and
//!   without the paths to skip, and the remark counts what is in it [`IsSnapshotAnswer`]. All this
//!   is said where it is known what the folders hold (`Folders`, `holds`). Of the folders of a file
//!   system nothing is known.
//! - The answer to a comparison says exactly which paths of the folder aren't as the recording has
//!   them at its end, of those that the snapshot didn't skip [`IsCompareAnswer`].
//! - The answer to the request for a script is that of `casebook_script`, with the tree of the
//!   snapshot in the document and both tables [`IsScript`], and otherwise the fault of the document
//!   or of a table [`IsNoScript`].
//! - The answer to a restore is the plan of `casebook_restore` for the folder as it was when it was
//!   opened, in lines, and says no exactly if the folder is neither ready for one of the plan's
//!   paths nor done with it [`IsRestoreAnswer`]; that of one that is taken back likewise, for the
//!   rows of its undo file [`IsUndoAnswer`]. Only if each path is ready or done, and if that is
//!   asked for, is the plan carried out, by `carry_out` of `casebook_restore`; after another fault
//!   than `Unfinished` no step is made. That the rows are in the undo file before the first step is
//!   only tested.
#![tactic(auto)]

mod answer;
mod comparing;
mod file_fault;
mod folders;
mod remark;
mod request;
mod restore_fault;
mod restore_requests;
mod restoring;
mod script_names;
mod scripting;
mod source;
mod source_fault;
mod taking;
mod undo_rows;
mod undoing;
mod words;

pub use answer::{SnapshotAnswer, snapshot_answer};
pub use comparing::{CompareAnswer, compare_answer};
pub use file_fault::FileFault;
pub use folders::{Folders, Owner, snapshot_at};
pub use request::{
    ComparedSnapshot, FolderFault, FolderProblem, SnapshotRequest, compared_snapshot,
    snapshot_request,
};
pub use restore_fault::RestoreFault;
pub use restore_requests::{RestoreRequest, UndoRequest, restore_request, undo_request};
pub use restoring::{KnownAttributes, RepairedTree, RestoreAnswer, restore_answer};
pub use script_names::{ScriptRequest, script_request};
pub use scripting::{ScriptFault, ScriptParts, script_answer};
pub use source::{Mounts, Source};
pub use source_fault::SourceFault;
pub use undoing::undo_answer;
pub use words::{compare_command, restore_command, script_command, snapshot_command};

/// Allocation failed.
pub use retro_path::NoMem;
