//! What an undo file says.

use casebook_folder::Rows;
use retro_path::Path;

/// The rows of a restore, as they were kept before its first step.
#[derive(Drop)]
pub struct UndoFile {
    /// The path of the folder in the trees.
    pub at: Path,
    /// The rows.
    pub rows: Rows,
}
