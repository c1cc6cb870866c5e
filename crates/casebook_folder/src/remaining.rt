//! The rows that a folder still needs.
ghost use Rattle.std.specs.Prelude.{◌≡◌, [], ◌∷◌, ◌++◌, IfOk, IfSome, OnOk, Some};
ghost use Rattle.casebook_folder.specs.Remaining as Remaining;
ghost use Rattle.casebook_folder.specs.Remaining.{CanGoOn, MayGoOn};
ghost use Rattle.casebook_folder.specs.Steps.{after_steps};

use crate::NoMem;
use crate::folder::Folder;
use crate::folder_error::FolderError;
use crate::found::Found;
use crate::row::Row;
use std::alloc::Global;

/// Returns the rows that a folder still needs, each with what the folder holds now.
///
/// # Errors
///
/// `Differs` if a path holds neither what its row says that was there nor what it is to hold, and
/// isn't missing.
pub(crate) fn rows_left<F: Folder>(
    alloc: Global,
    folder: &F,
    rows: &[Row],
) -> Result<Vec<Row>, FolderError>
    ensures left { IfSome (F.first folder.now) (λ first. IfOk result (λ left.
        left.items ≡ Remaining.remaining_rows rows.now (after_steps (F.made folder.now) first))) }
    ensures begun { IfSome (F.first folder.now) (λ first. OnOk result (
        MayGoOn rows.now (after_steps (F.made folder.now) first))) }
{
    let mut left = Vec::new(alloc);
    for row in rows {
        add_row(&mut left, folder, row)?;
    }
    Ok(left)
}

/// Appends a row, if a folder still needs it.
fn add_row<F: Folder>(left: &mut Vec<Row>, folder: &F, row: &Row) -> Result<(), FolderError>
    ensures { IfSome (F.first folder.now) (λ first. OnOk result (
        (left.new.items ≡ left.old.items
        ++ Remaining.remaining_rows (row.now ∷ []) (after_steps (F.made folder.now) first))
        × CanGoOn (Some row.now) (after_steps (F.made folder.now) first row.now.path))) }
{
    let found = folder.look(&row.path)?;
    if found.is_same(&row.after) {
        return Ok(());
    }
    if found.is_same(&row.before) || found.is_missing() {
        push_row(left, row, found)?;
        return Ok(());
    }
    Err(FolderError::Differs)
}

/// Appends a row that begins with what is found.
fn push_row(rows: &mut Vec<Row>, row: &Row, found: Found) -> Result<(), NoMem>
    ensures { OnOk result
        (rows.new.items ≡ rows.old.items ++ Remaining.row_from row.now found ∷ []) }
{
    let path = row.path.copy()?;
    let after = row.after.copy()?;
    rows.push(Row {
        path,
        before: found,
        after,
    })?;
    Ok(())
}
