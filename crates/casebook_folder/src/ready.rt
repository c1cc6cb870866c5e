//! Rows for which a folder is ready.
ghost use Rattle.std.specs.Prelude.{◌≡◌, [], ◌∷◌, ◌++◌, OnOk, false, true};
ghost use Rattle.casebook_folder.specs.Plans.{can_be_restored, ready_rows, row_of};
ghost use Rattle.casebook_folder.specs.declared.folder_error.FolderError.TheVariants as errors;

use crate::NoMem;
use crate::folder_error::FolderError;
use crate::planned_row::PlannedRow;
use crate::row::Row;

/// Appends the row of a planned row, if the folder is ready for it.
///
/// # Errors
///
/// `NotReady` if the folder is neither ready for it nor done with it.
pub(crate) fn add_ready(rows: &mut Vec<Row>, row: &PlannedRow) -> Result<(), FolderError>
    ensures ok { OnOk result (rows.new.items ≡ rows.old.items ++ ready_rows (row.now ∷ [])) }
    ensures ready { OnOk result (can_be_restored row.now ≡ true) }
    ensures not_ready { result ≡ Err errors.NotReady → can_be_restored row.now ≡ false }
    ensures sorted { ¬ (result ≡ Err errors.Unsorted) }
{
    if row.state.is_done() {
        return Ok(());
    }
    if !row.state.is_ready() {
        return Err(FolderError::NotReady);
    }
    push_row(rows, row)?;
    Ok(())
}

/// Appends the row of a planned row.
fn push_row(rows: &mut Vec<Row>, row: &PlannedRow) -> Result<(), NoMem>
    ensures { OnOk result (rows.new.items ≡ rows.old.items ++ row_of row.now ∷ []) }
{
    let row = row.row()?;
    rows.push(row)?;
    Ok(())
}
