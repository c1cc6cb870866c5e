//! Answers to requests that take restores back.
ghost use Rattle.std.specs.Prelude.{◌≡◌, ◌&&◌, [], ℕ, List, Ok, IfOk, IfSome, Some, false, map, true};
ghost use Rattle.casebook_folder.specs.Moments.{IsRestored};
ghost use Rattle.casebook_folder.specs.Parts.{HaveNoParts};
ghost use Rattle.casebook_folder.specs.Steps.{after_steps};
ghost use Rattle.casebook_folder_cli.specs.Restoring.{IsUndoAnswer};
ghost use Rattle.casebook_folder_cli.specs.Views.{undo_view};
ghost use Rattle.casebook_restore.specs.Plans.{can_be_carried_out};
ghost use Rattle.casebook_restore.specs.RowPlans.{planned_in};
ghost use Rattle.casebook_undo.specs.Reading.{undo_in};
ghost use Rattle.casebook_undo.specs.Reads.{file_view};

use crate::folders::Folders;
use crate::restore_fault::RestoreFault;
use crate::restore_requests::UndoRequest;
use crate::restoring::{RestoreAnswer, fault_of_look, fault_of_steps, remark_of};
use crate::undo_rows::fault_of_file;
use casebook_folder::{Folder, Rows, apply, undo};
use casebook_restore::{RestorePlan, plan_lines, plan_rows};
use casebook_undo::{UndoFile, read_rows};
use std::alloc::Global;

/// Reads the undo file with a name.
fn undo_file<D: Folders>(alloc: Global, folders: &D, name: &str) -> Result<UndoFile, RestoreFault>
    ensures { IfSome (D.holds folders.now) (λ at. IfOk result (λ file.
        (bytes : List ℕ) × ((at.undo_files name.now ≡ Some bytes)
        × (undo_in bytes ≡ Ok (file_view file))))) }
{
    let text = match folders.undo_file(alloc, name) {
        Ok(Some(text)) => text,
        Ok(None) => return Err(RestoreFault::UndoFailed),
        Err(error) => return Err(fault_of_file(error)),
    };
    match read_rows(alloc, text.as_slice()) {
        Ok(file) => Ok(file),
        Err(fault) => Err(RestoreFault::BadUndo(fault)),
    }
}

/// Carries out rows, if the folder is ready for each of them or done with it, and if that is asked
/// for, and returns whether it is.
fn apply_if<D: Folders>(
    alloc: Global,
    folder: &mut D::Opened,
    rows: &Rows,
    plan: &RestorePlan,
    is_asked: bool,
) -> Result<bool, RestoreFault>
    ensures done { IfOk result (λ is_done. is_done
        ≡ (can_be_carried_out plan.now && is_asked)) }
    // What is only planned changes nothing.
    ensures planned { is_asked ≡ false → D.Opened.made folder.new ≡ D.Opened.made folder.old }
    // After success the folder holds what the rows put at their paths, and is as it was elsewhere.
    // What stopped steps left beside the paths is removed.
    ensures restored { IfOk result (λ is_done. is_done ≡ true
        → IfSome (D.Opened.first folder.old) (λ first. IsRestored rows.now.items.items
        (after_steps (D.Opened.made folder.old) first)
        (after_steps (D.Opened.made folder.new) first))) }
    ensures no_parts { IfOk result (λ is_done. is_done ≡ true
        → IfSome (D.Opened.first folder.old) (λ first.
        HaveNoParts (D.Opened.parts folder.new) rows.now.items.items)) }
{
    if !(plan.can_be_carried_out() && is_asked) {
        return Ok(false);
    }
    match apply(alloc, folder, rows) {
        Ok(()) => Ok(true),
        Err(error) => Err(fault_of_steps(error)),
    }
}

/// Returns how a folder that is open is to each row.
fn plan_of<F: Folder>(alloc: Global, folder: &F, rows: &Rows) -> Result<RestorePlan, RestoreFault>
    ensures rows { IfSome (F.first folder.now) (λ first. IfOk result (λ plan. plan.rows.items
        ≡ map (planned_in (after_steps (F.made folder.now) first)) rows.now.items.items)) }
    ensures unkept { IfOk result (λ plan. plan.unkept.items ≡ []) }
    ensures outside { IfOk result (λ plan. plan.outside ≡ 0) }
    ensures left_out { IfOk result (λ plan. plan.left_out ≡ 0) }
{
    match plan_rows(alloc, folder, rows) {
        Ok(plan) => Ok(plan),
        Err(error) => Err(fault_of_look(error)),
    }
}

/// Plans to take a restore back, by its undo file, and carries that out if it is asked for and the
/// folder is ready for each row or done with it.
pub fn undo_answer<D: Folders>(
    alloc: Global,
    folders: &D,
    request: &UndoRequest<'_>,
) -> Result<RestoreAnswer, RestoreFault>
    ensures { IfOk result (λ answer. IfSome (D.holds folders.now) (λ at. (bytes : List ℕ)
        × ((at.undo_files request.now.undo.now ≡ Some bytes)
        × IsUndoAnswer at (undo_view request.now) bytes answer))) }
{
    let file = undo_file(alloc, folders, request.undo)?;
    let rows = undo(alloc, &file.rows)?;
    let mut folder = folders.open(alloc, request.root, &file.at)?;
    let plan = plan_of(alloc, &folder, &rows)?;
    let lines = plan_lines(alloc, &plan)?;
    let is_done = apply_if::<D>(alloc, &mut folder, &rows, &plan, request.apply)?;
    Ok(RestoreAnswer {
        lines,
        is_no: !plan.can_be_carried_out(),
        remark: remark_of(alloc, is_done)?,
    })
}
