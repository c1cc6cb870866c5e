//! Laws of undo files, for the proofs of crates above.
ghost use Rattle.std.specs.Prelude.{◌≡◌, ℕ, List, Ok, Result};
ghost use Rattle.retro_path.specs.Path.{PathValue};
ghost use Rattle.casebook_folder.specs.Rows.{AreInOrder};
ghost use Rattle.casebook_undo.specs.Reading.{undo_in, undo_view};
ghost use Rattle.casebook_undo.specs.Reads.{IsReadAs, IsReadOf};

use crate::undo_fault::UndoFault;
use crate::undo_file::UndoFile;
use casebook_folder::Row;

/// States that bytes which say a path and rows in order, as those of `write_rows` do (clause
/// `again`), are read as this path and these rows, unless memory runs out.
pub fn written_rows_read_back()
    ensures { (at : PathValue) (rows : List Row) (bytes : List ℕ)
        (result : Result UndoFile UndoFault) → AreInOrder rows
        → undo_in bytes ≡ Ok (undo_view at rows) → IsReadOf (undo_in bytes) result
        → IsReadAs at rows result }
{}
