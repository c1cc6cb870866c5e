//! The rows of a restore in its undo file.
ghost use Rattle.std.specs.Prelude.{◌≡◌, IfErr, IfOk, false};
ghost use Rattle.casebook_folder_cli.specs.Faults.{is_unfinished};
ghost use Rattle.casebook_restore.specs.Carrying.{AreRowsOf};

use crate::folders::Folders;
use crate::restore_fault::RestoreFault;
use casebook_folder::{FolderError, Rows};
use casebook_restore::{RestorePlan, rows_of};
use casebook_undo::{WriteFault, read_rows, write_rows};
use retro_path::Path;
use std::alloc::Global;

/// Returns why rows aren't in an undo file.
fn fault_of_writing(error: WriteFault) -> RestoreFault
    ensures { is_unfinished result ≡ false }
{
    match error {
        WriteFault::NoMem => RestoreFault::NoMem,
        WriteFault::Unwritable => RestoreFault::OtherUndo,
    }
}

/// Returns why an undo file isn't read or written.
pub(crate) fn fault_of_file(error: FolderError) -> RestoreFault
    ensures { is_unfinished result ≡ false }
{
    match error {
        FolderError::NoMem => RestoreFault::NoMem,
        _ => RestoreFault::UndoFailed,
    }
}

/// Returns the rows of the undo file of a folder at a path, or `None` if there is no such file.
fn kept_rows<D: Folders>(
    alloc: Global,
    folders: &D,
    name: &str,
    at: &Path,
) -> Result<Option<Rows>, RestoreFault>
    ensures { IfErr result (λ fault. is_unfinished fault ≡ false) }
{
    let text = match folders.undo_file(alloc, name) {
        Ok(Some(text)) => text,
        Ok(None) => return Ok(None),
        Err(error) => return Err(fault_of_file(error)),
    };
    match read_rows(alloc, text.as_slice()) {
        Ok(file) if file.at == *at => Ok(Some(file.rows)),
        Ok(_) => Err(RestoreFault::OtherUndo),
        Err(fault) => Err(RestoreFault::BadUndo(fault)),
    }
}

/// Writes rows of a folder at a path to a new undo file.
fn keep_rows<D: Folders>(
    alloc: Global,
    folders: &D,
    name: &str,
    at: &Path,
    rows: &Rows,
) -> Result<(), RestoreFault>
    ensures { IfErr result (λ fault. is_unfinished fault ≡ false) }
{
    let text = match write_rows(alloc, rows, at) {
        Ok(text) => text,
        Err(error) => return Err(fault_of_writing(error)),
    };
    match folders.keep(alloc, name, text.as_slice()) {
        Ok(()) => Ok(()),
        Err(error) => Err(fault_of_file(error)),
    }
}

/// Returns the rows by which a plan is carried out. They are in the undo file then: there already
/// if a run before was interrupted, and otherwise newly.
pub(crate) fn rows_in_file<D: Folders>(
    alloc: Global,
    folders: &D,
    name: &str,
    at: &Path,
    plan: &RestorePlan,
) -> Result<Rows, RestoreFault>
    ensures ok { IfOk result (λ rows. AreRowsOf plan.now.rows.items rows.items.items) }
    ensures err { IfErr result (λ fault. is_unfinished fault ≡ false) }
{
    let kept = kept_rows(alloc, folders, name, at)?;
    let is_new = kept.is_none();
    let rows = match rows_of(alloc, plan, kept) {
        Ok(rows) => rows,
        Err(FolderError::NoMem) => return Err(RestoreFault::NoMem),
        Err(_) => return Err(RestoreFault::OtherUndo),
    };
    if is_new {
        keep_rows(alloc, folders, name, at, &rows)?;
    }
    Ok(rows)
}
