//! Restores of folders.
ghost use Rattle.std.specs.Prelude.{◌≡◌, IfOk, IfErr, IfSome};
ghost use Rattle.casebook_folder_cli.specs.Views.{restore_view, undo_view};
ghost use Rattle.casebook_text.specs.SafeLine.{text_of_lines};
ghost use Rattle.casebook_request.specs.Views.{folder_repair_view, repair_view};
ghost use Rattle.casebook_cli.specs.Answers.{AnswersRestore, AnswersUndo, IsRepairOf, IsRestoreOf};
ghost use Rattle.casebook_cli.specs.Answers.{SaysRestore};
ghost use Rattle.casebook_cli.specs.Harmless.{IsHarmless};
ghost use Rattle.casebook_cli.specs.Stops.{StopsFolder, StopsRepairOf, StopsRestore, undo_name};
ghost use Rattle.casebook_cli.specs.inner.Views.{answer_view};

use crate::NoMem;
use crate::answer::Answer;
use crate::plain::plain_lines;
use casebook_folder_cli::{
    Folders, RepairedTree, RestoreAnswer, RestoreFault, RestoreRequest, UndoRequest,
    restore_answer, undo_answer,
};
use casebook_repairs::{
    AskedRepair, Check, Documents, Hindrance, Progress, Stop, asked_repair, known_attributes,
    read_inputs,
};
use casebook_request::{FolderRepair, RepairRequest, repair_sources};
use casebook_text::SafeLine;
use casebook_view::unknown_in;
use std::alloc::{AllocGlobal, Global};
use std::thread::Threads;

/// Returns why the folder with a name isn't restored, by the name of the undo file.
fn restore_stop<'a>(root: &'a str, undo: &'a str, fault: RestoreFault) -> Stop<'a>
    ensures { StopsFolder root.entry.now undo.entry.now result }
{
    match fault {
        RestoreFault::NoMem => Stop::OutOfMemory,
        RestoreFault::Unreadable => Stop::ReadFailed(root, Hindrance::Other),
        RestoreFault::NotADirectory => Stop::NotADirectory(root),
        RestoreFault::UndoFailed => Stop::UndoFailed(undo),
        RestoreFault::BadUndo(_) => Stop::BadUndo(undo),
        RestoreFault::OtherUndo => Stop::OtherUndo(undo),
        RestoreFault::Differs => Stop::FolderChanged(root),
        RestoreFault::Unfinished => Stop::Unfinished(root),
    }
}

/// Returns what a restore says, as an answer.
fn shown(alloc: Global, restored: &RestoreAnswer) -> Result<Answer, NoMem>
    ensures text { IfOk result (λ answer.
        answer.text.items ≡ text_of_lines restored.now.lines.items) }
    ensures no { IfOk result (λ answer. answer.is_no ≡ restored.now.is_no) }
    ensures harmless { IfOk result (λ answer. IsHarmless answer.text.items) }
{
    Ok(Answer {
        text: plain_lines(alloc, restored.lines.as_slice())?.into_bytes(),
        is_no: restored.is_no,
    })
}

/// Reads the documents of a repair, and returns it.
fn repair_of<'a, R: Threads + Sync + AllocGlobal, D: Documents + Progress>(
    rt: &R,
    documents: &D,
    request: RepairRequest<'a>,
) -> Result<AskedRepair, Stop<'a>>
    ensures ok { IfOk result (λ asked. IfSome (D.bytes_of documents.now) (λ at.
        IsRepairOf at (repair_view request.entry) asked)) }
    ensures err { IfErr result (λ stop. IfSome (D.bytes_of documents.now) (λ at.
        StopsRepairOf at (repair_view request.entry) stop)) }
{
    let inputs = read_inputs(rt.alloc(), documents, repair_sources(&request))?;
    asked_repair(rt, documents, &inputs, request, Check::Unwanted)
}

/// Tells how many lines of a case have to be run for real, if there are some: what they wrote is
/// restored as it was observed.
fn tell_to_run<P: Progress>(alloc: Global, progress: &P, asked: &AskedRepair) -> Result<(), NoMem> {
    if asked.seen.is_none() {
        return Ok(());
    }
    let count = unknown_in(alloc, &asked.case(alloc)?)?.len();
    if count == 0 {
        return Ok(());
    }
    let mut line = SafeLine::new(alloc);
    line.push_number(alloc, count as u64)?;
    line.push_ascii(if count == 1 {
        " line has to be run for real; casebook show says which"
    } else {
        " lines have to be run for real; casebook show says which"
    })?;
    progress.remark(&line);
    Ok(())
}

/// Brings a folder from the end of a recording to that of its repair, or plans it. What comes back
/// gets the mode and the owner that it was last seen to have after a line of the repair.
fn restore_of<D: Folders>(
    alloc: Global,
    folders: &D,
    folder: &RestoreRequest<'_>,
    asked: &AskedRepair,
) -> Result<RestoreAnswer, RestoreFault>
    ensures { IfOk result (λ restored. IfSome (D.holds folders.now) (λ at.
        IsRestoreOf at (restore_view folder.now) asked.now restored)) }
{
    let known = known_attributes(alloc, &asked.repair.recording, asked.attributes.as_slice())?;
    let recorded = asked.recording.last().tree();
    let repaired = asked.repair.state().tree();
    let tree = RepairedTree {
        recorded,
        repaired,
        known,
    };
    restore_answer(alloc, folders, folder, tree)
}

/// Returns what a restore of a folder by a repair does or would do, and tells whether it was done.
fn restored<'a, D: Folders + Progress>(
    alloc: Global,
    documents: &D,
    folder: &RestoreRequest<'a>,
    asked: &AskedRepair,
) -> Result<Answer, Stop<'a>>
    ensures ok { IfOk result (λ answer. IfSome (D.holds documents.now) (λ folders.
        SaysRestore folders (restore_view folder.now) asked.now (answer_view answer))) }
    ensures err { IfErr result (StopsFolder (restore_view folder.now).root
        (undo_name (restore_view folder.now).undo)) }
{
    match restore_of(alloc, documents, folder, asked) {
        Ok(answer) => {
            documents.remark(&answer.remark);
            Ok(shown(alloc, &answer)?)
        }
        Err(fault) => Err(restore_stop(folder.root, folder.undo.unwrap_or(""), fault)),
    }
}

/// Returns what a restore of a folder does or would do, and tells whether it was done.
pub(crate) fn restore_text<'a, R: Threads + Sync + AllocGlobal, D: Documents + Folders + Progress>(
    rt: &R,
    documents: &D,
    request: FolderRepair<'a>,
) -> Result<Answer, Stop<'a>>
    ensures ok { IfOk result (λ answer. IfSome (D.bytes_of documents.now) (λ at.
        IfSome (D.holds documents.now) (λ folders. AnswersRestore at folders
        (folder_repair_view request.entry) (answer_view answer)))) }
    ensures err { IfErr result (λ stop. IfSome (D.bytes_of documents.now) (λ at.
        IfSome (D.holds documents.now) (λ folders.
        StopsRestore at (folder_repair_view request.entry) stop))) }
{
    let FolderRepair { repair, folder } = request;
    let asked = repair_of(rt, documents, repair)?;
    tell_to_run(rt.alloc(), documents, &asked)?;
    restored(rt.alloc(), documents, &folder, &asked)
}

/// Returns what taking a restore back does or would do, and tells whether it was done.
pub(crate) fn undo_text<'a, D: Documents + Folders + Progress>(
    alloc: Global,
    documents: &D,
    request: UndoRequest<'a>,
) -> Result<Answer, Stop<'a>>
    ensures ok { IfOk result (λ answer. IfSome (D.bytes_of documents.now) (λ at.
        IfSome (D.holds documents.now) (λ folders.
        AnswersUndo folders (undo_view request.entry) (answer_view answer)))) }
    ensures err { IfErr result
        (StopsFolder (undo_view request.entry).root (undo_view request.entry).undo) }
{
    match undo_answer(alloc, documents, &request) {
        Ok(answer) => {
            documents.remark(&answer.remark);
            Ok(shown(alloc, &answer)?)
        }
        Err(fault) => Err(restore_stop(request.root, request.undo, fault)),
    }
}
