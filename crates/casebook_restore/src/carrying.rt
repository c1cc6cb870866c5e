//! Carrying out plans.
ghost use Rattle.std.specs.Prelude.{◌≡◌, Err, IfOk, IfSome, OnOk};
ghost use Rattle.casebook_folder.specs.Parts.{HaveNoParts, PartsStayBesides};
ghost use Rattle.casebook_folder.specs.Plans.{AreSeenRows};
ghost use Rattle.casebook_folder.specs.Remaining.{EachMoment, TouchesOnly};
ghost use Rattle.casebook_folder.specs.Steps.{after_steps};
ghost use Rattle.casebook_folder.specs.declared.folder_error.FolderError.TheVariants as errors;
ghost use Rattle.casebook_restore.specs.Carrying.{AreRowsOf, IsRepaired};
ghost use Rattle.casebook_restore.specs.Restores.{IsRestorePlan, RestoreValue};

use crate::task::RestorePlan;
use casebook_folder::{Folder, FolderError, Rows, apply};
use std::alloc::Global;

/// Returns the rows by which a plan is carried out: those that were kept by a run before that may
/// have been interrupted, or else those of the plan.
///
/// # Errors
///
/// `NotReady` if the folder is neither ready for one of the plan's rows nor done with it, or if the
/// kept rows aren't those of the plan; `Unsorted` if the plan's rows aren't in order of their
/// paths, or a path has two.
pub fn rows_of(alloc: Global, plan: &RestorePlan, kept: Option<Rows>) -> Result<Rows, FolderError>
    ensures { IfOk result (λ rows. AreRowsOf plan.now.rows.items rows.items.items) }
{
    let planned = plan.rows.as_slice();
    match kept {
        None => Rows::of_plan(alloc, planned),
        Some(rows) => rows.for_plan(planned),
    }
}

/// Carries out a plan by its rows, which were kept before. After an interruption it can be called
/// again, with a plan that is made anew and the same rows.
///
/// # Errors
///
/// `Differs` if a path holds neither what its row says that was there nor what it is to hold, and
/// isn't missing. No step is made. After another error some of the steps are made, in order.
pub fn carry_out<F: Folder>(
    alloc: Global,
    folder: &mut F,
    plan: &RestorePlan,
    rows: &Rows,
) -> Result<(), FolderError>
    requires rows { AreRowsOf plan.now.rows.items rows.now.items.items }
    ensures same { F.first folder.new ≡ F.first folder.old }
    // After success of a plan that was made for the folder, it holds the repaired nodes at exactly
    // the plan's paths, and is as it was elsewhere.
    ensures repaired { OnOk result (IfSome (F.first folder.old) (λ first.
        (task : RestoreValue) → IsRestorePlan task plan.now
        → AreSeenRows (after_steps (F.made folder.old) first) plan.now.rows.items
        → IsRepaired task.repaired plan.now.rows.items
        (after_steps (F.made folder.old) first) (after_steps (F.made folder.new) first))) }
    // At each moment, also where it fails, each path holds its old or its new node, or nothing
    // while its kind changes.
    ensures any_moment { IfSome (F.first folder.old) (λ first.
        EachMoment rows.now.items.items first (F.made folder.old) (F.made folder.new)) }
    // If a path isn't as its row says, no step is made.
    ensures refused { result ≡ Err errors.Differs → F.made folder.new ≡ F.made folder.old }
    // No step is at a path that no row is of, or where the folder holds something that is blocked.
    ensures touched { IfSome (F.first folder.old) (λ first.
        TouchesOnly rows.now.items.items first (F.made folder.old) (F.made folder.new)) }
    // What stopped steps left beside the rows' paths is removed, and beside other paths nothing is
    // left.
    ensures no_parts { OnOk result (IfSome (F.first folder.old) (λ first.
        HaveNoParts (F.parts folder.new) rows.now.items.items)) }
    ensures other_parts { IfSome (F.first folder.old) (λ first. PartsStayBesides
        rows.now.items.items (F.parts folder.old) (F.parts folder.new)) }
{
    apply(alloc, folder, rows)
}
