//! Plans of restores.
ghost use Rattle.std.specs.Prelude.{IfOk, IfSome};
ghost use Rattle.casebook_folder.specs.Plans.{AreSeenRows};
ghost use Rattle.casebook_folder.specs.Steps.{after_steps};
ghost use Rattle.casebook_restore.specs.Restores.{IsRestorePlan};
ghost use Rattle.casebook_restore.specs.Views.{task_view};

use crate::choosing::Choice;
use crate::task::{RestorePlan, RestoreTask};
use casebook_changes::changed_paths;
use casebook_folder::{Folder, FolderError, plan};
use std::alloc::Global;

/// Returns what a restore would do in a folder. Only looks at it: at the chosen paths in which the
/// two trees differ, and at nothing else.
pub fn plan_restore<F: Folder>(
    alloc: Global,
    folder: &F,
    task: &RestoreTask<'_>,
) -> Result<RestorePlan, FolderError>
    // The rows are those of exactly the chosen paths in which the trees differ.
    ensures plan { IfOk result (IsRestorePlan (task_view task.now)) }
    // Each row says what the folder holds.
    ensures seen { IfSome (F.first folder.now) (λ first. IfOk result (λ plan.
        AreSeenRows (after_steps (F.made folder.now) first) plan.rows.items)) }
{
    let trees = &task.trees;
    let choice = Choice {
        repaired: trees.repaired,
        at: task.at,
        only: task.only,
    };
    let changed = changed_paths(alloc, trees.recorded, trees.repaired)?;
    let outside = choice.count_outside(changed.as_slice());
    let left_out = choice.count_left_out(changed.as_slice());
    let unkept = choice.unkept(alloc, changed.as_slice())?;
    let paths = choice.wanted(alloc, changed)?;
    let rows = plan(alloc, folder, trees, paths.as_slice())?;
    Ok(RestorePlan {
        rows,
        unkept,
        outside,
        left_out,
    })
}
