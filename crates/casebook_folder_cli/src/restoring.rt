//! Answers to requests for restores.
ghost use Rattle.std.specs.Prelude.{◌≡◌, ◌&&◌, IfErr, IfOk, IfSome, false, is_none, is_some, true};
ghost use Rattle.casebook_folder.specs.Plans.{AreSeenRows};
ghost use Rattle.casebook_folder.specs.Steps.{after_steps};
ghost use Rattle.casebook_folder_cli.specs.Faults.{fault_of_look, fault_of_steps, is_unfinished};
ghost use Rattle.casebook_folder_cli.specs.Restoring.{IsGiven, IsRestoreAnswer, said_of};
ghost use Rattle.casebook_folder_cli.specs.Views.{restore_view, tree_view};
ghost use Rattle.casebook_restore.specs.Carrying.{IsRepaired};
ghost use Rattle.casebook_restore.specs.Plans.{can_be_carried_out};
ghost use Rattle.casebook_restore.specs.Restores.{IsRestorePlan, RestoreValue};
ghost use Rattle.casebook_restore.specs.Views.{task_view};

use crate::NoMem;
use crate::folders::{Folders, Owner};
use crate::restore_fault::RestoreFault;
use crate::restore_requests::RestoreRequest;
use crate::undo_rows::rows_in_file;
use casebook_folder::{Attributes, Folder, FolderError, GivenAttributes, Trees};
use casebook_restore::{RestorePlan, RestoreTask, carry_out, plan_lines, plan_restore};
use casebook_text::SafeLine;
use retro_path::Path;
use retro_tree::Tree;
use std::alloc::Global;
use std::collections::BTreeMap;

/// What a restore says.
#[derive(Drop)]
pub struct RestoreAnswer {
    /// The plan: how many paths are in which state, and each path.
    pub lines: Vec<SafeLine>,
    /// Whether a path is neither ready nor done, or can't be restored, so that nothing is changed.
    pub is_no: bool,
    /// Whether the folder was restored, or nothing was changed.
    pub remark: SafeLine,
}

/// The mode of a new file.
const FILE_MODE: u32 = 0o600;

/// The mode of a new directory.
const DIR_MODE: u32 = 0o700;

/// Modes and owners that are known of paths.
#[derive(Drop)]
pub struct KnownAttributes {
    /// Those of files.
    pub files: BTreeMap<Path, Attributes>,
    /// Those of directories.
    pub dirs: BTreeMap<Path, Attributes>,
}

/// From which tree to which a folder is brought, and what is known of modes and owners.
#[derive(Drop)]
pub struct RepairedTree<'a> {
    /// The recorded tree.
    pub recorded: &'a Tree,
    /// The repaired tree.
    pub repaired: &'a Tree,
    /// The modes and owners that are known of paths.
    pub known: KnownAttributes,
}

/// Returns the modes and owners of what is new: those that are known, and others for all other
/// paths.
fn given_by(known: KnownAttributes, owner: Owner) -> GivenAttributes
    ensures { IsGiven known owner result }
{
    let Owner { uid, gid } = owner;
    GivenAttributes {
        files: known.files,
        dirs: known.dirs,
        file: Attributes {
            mode: FILE_MODE,
            uid,
            gid,
        },
        dir: Attributes {
            mode: DIR_MODE,
            uid,
            gid,
        },
    }
}

/// Returns why a folder isn't looked at.
pub(crate) fn fault_of_look(error: FolderError) -> RestoreFault
    ensures { result ≡ fault_of_look error }
{
    match error {
        FolderError::NoMem => RestoreFault::NoMem,
        _ => RestoreFault::Unreadable,
    }
}

/// Returns why a plan isn't carried out to its end.
pub(crate) fn fault_of_steps(error: FolderError) -> RestoreFault
    ensures { result ≡ fault_of_steps error }
{
    match error {
        FolderError::Differs => RestoreFault::Differs,
        _ => RestoreFault::Unfinished,
    }
}

/// Returns what is said of what was done.
pub(crate) fn remark_of(alloc: Global, is_done: bool) -> Result<SafeLine, NoMem>
    ensures { IfOk result (λ line. line ≡ said_of is_done) }
{
    let mut line = SafeLine::new(alloc);
    if is_done {
        line.push_ascii("restored")?;
    } else {
        line.push_ascii("nothing was changed")?;
    }
    Ok(line)
}

/// Carries out a plan, if that is asked for, and returns whether it is.
///
/// # Errors
///
/// After `Unfinished` some of the steps are made, in order, and after another fault none.
fn carry_if_asked<D: Folders>(
    alloc: Global,
    folders: &D,
    folder: &mut D::Opened,
    request: &RestoreRequest<'_>,
    plan: &RestorePlan,
) -> Result<bool, RestoreFault>
    ensures asked { IfOk result (λ is_done. is_done ≡ is_some request.now.undo) }
    // What is only planned changes nothing.
    ensures planned { is_none request.now.undo ≡ true
        → D.Opened.made folder.new ≡ D.Opened.made folder.old }
    // After success the folder holds the repaired nodes at exactly the plan's paths.
    ensures repaired { IfOk result (λ is_done. is_done ≡ true
        → IfSome (D.Opened.first folder.old) (λ first. (task : RestoreValue)
        → IsRestorePlan task plan.now
        → AreSeenRows (after_steps (D.Opened.made folder.old) first) plan.now.rows.items
        → IsRepaired task.repaired plan.now.rows.items
        (after_steps (D.Opened.made folder.old) first)
        (after_steps (D.Opened.made folder.new) first))) }
    ensures unchanged { IfErr result (λ fault. is_unfinished fault ≡ false
        → D.Opened.made folder.new ≡ D.Opened.made folder.old) }
{
    let Some(name) = request.undo else {
        return Ok(false);
    };
    let rows = rows_in_file(alloc, folders, name, &request.at, plan)?;
    match carry_out(alloc, folder, plan, &rows) {
        Ok(()) => Ok(true),
        Err(error) => Err(fault_of_steps(error)),
    }
}

/// Carries out a plan, if what was at each path is kept and the folder is ready for it or done with
/// it, and if that is asked for, and returns whether it is.
fn carry_if_ready<D: Folders>(
    alloc: Global,
    folders: &D,
    folder: &mut D::Opened,
    request: &RestoreRequest<'_>,
    plan: &RestorePlan,
) -> Result<bool, RestoreFault>
    ensures { IfOk result (λ is_done. is_done
        ≡ (can_be_carried_out plan.now && is_some request.now.undo)) }
{
    if !plan.can_be_carried_out() {
        return Ok(false);
    }
    carry_if_asked(alloc, folders, folder, request, plan)
}

/// Returns the plan of a restore of a folder that is open.
fn plan_of<F: Folder>(
    alloc: Global,
    folder: &F,
    task: &RestoreTask<'_>,
) -> Result<RestorePlan, RestoreFault>
    ensures plan { IfOk result (IsRestorePlan (task_view task.now)) }
    ensures seen { IfSome (F.first folder.now) (λ first. IfOk result (λ plan.
        AreSeenRows (after_steps (F.made folder.now) first) plan.rows.items)) }
{
    match plan_restore(alloc, folder, task) {
        Ok(plan) => Ok(plan),
        Err(error) => Err(fault_of_look(error)),
    }
}

/// Plans a restore of a folder from a recorded to a repaired tree, and carries it out if that is
/// asked for, what was at each path is kept, and the folder is ready for it or done with it. What
/// the folder doesn't have gets the mode and the owner that are known of its path, or else the mode
/// 0600 or 0700 and who runs the program.
pub fn restore_answer<'a, D: Folders>(
    alloc: Global,
    folders: &D,
    request: &'a RestoreRequest<'_>,
    tree: RepairedTree<'a>,
) -> Result<RestoreAnswer, RestoreFault>
    ensures { IfOk result (λ answer. IfSome (D.holds folders.now) (λ at.
        IsRestoreAnswer at (restore_view request.now) (tree_view tree.entry) answer)) }
{
    let mut folder = folders.open(alloc, request.root, &request.at)?;
    let RepairedTree {
        recorded,
        repaired,
        known,
    } = tree;
    let given = given_by(known, folders.owner()?);
    let task = RestoreTask {
        trees: Trees {
            recorded,
            repaired,
            given: &given,
        },
        at: &request.at,
        only: request.only.as_slice(),
    };
    let plan = plan_of(alloc, &folder, &task)?;
    let lines = plan_lines(alloc, &plan)?;
    let is_done = carry_if_ready(alloc, folders, &mut folder, request, &plan)?;
    Ok(RestoreAnswer {
        lines,
        is_no: !plan.can_be_carried_out(),
        remark: remark_of(alloc, is_done)?,
    })
}
