//! Patches of repairs.
ghost use Rattle.std.specs.Prelude.{◌≡◌, IfErr, IfOk, filter};
ghost use Rattle.std.specs.Option.{option_copied};
ghost use Rattle.casebook_request.specs.Views.{repair_view};
ghost use Rattle.casebook_repairs.specs.Stops.{StopsAsked};
ghost use Rattle.casebook_repairs.specs.Views.{inputs_view};
ghost use Rattle.casebook_cli.specs.Answers.{Says};
ghost use Rattle.casebook_cli.specs.Patches.{IsPatch, IsPatchOf, is_own, is_whole};
ghost use Rattle.casebook_cli.specs.inner.Views.{answer_view};

use crate::NoMem;
use crate::answer::Answer;
use casebook_opaque::is_opaque;
use casebook_patch::{FileChange, file_changes, patch_of};
use casebook_repairs::{AskedRepair, Check, Inputs, Progress, Stop, asked_repair};
use casebook_request::RepairRequest;
use casebook_text::SafeLine;
use std::alloc::{AllocGlobal, Global};
use std::thread::Threads;

/// Returns whether the bytes of a file, if there is one, don't stand for something else.
fn is_own(file: Option<&[u8]>) -> bool
    ensures { result ≡ is_own (option_copied file.entry) }
{
    match file {
        Some(bytes) => !is_opaque(bytes),
        None => true,
    }
}

/// Returns whether both files of a change are kept.
fn is_whole(change: &FileChange<'_>) -> bool
    ensures { result ≡ is_whole change.now }
{
    is_own(change.old()) && is_own(change.new())
}

/// Returns the changes of files that are kept.
fn whole_changes<'t>(
    alloc: Global,
    changes: Vec<FileChange<'t>>,
) -> Result<Vec<FileChange<'t>>, NoMem>
    ensures { IfOk result (λ found. found.items ≡ filter is_whole changes.entry.items) }
{
    let mut found = Vec::new(alloc);
    for change in changes {
        if is_whole(&change) {
            found.push(change)?;
        }
    }
    Ok(found)
}

/// Tells how many files are left out, if some are.
fn tell_left_out<P: Progress>(alloc: Global, progress: &P, count: usize) -> Result<(), NoMem> {
    if count == 0 {
        return Ok(());
    }
    let mut line = SafeLine::new(alloc);
    line.push_number(alloc, count as u64)?;
    line.push_ascii(if count == 1 {
        " file that isn't kept is left out; casebook show says which"
    } else {
        " files that aren't kept are left out; casebook show says which"
    })?;
    progress.remark(&line);
    Ok(())
}

/// Returns the patch of a repair, and tells how many files it leaves out.
fn patch_bytes<P: Progress>(
    alloc: Global,
    progress: &P,
    asked: &AskedRepair,
) -> Result<Vec<u8>, NoMem>
    ensures { IfOk result (λ patch. IsPatchOf asked.now patch.items) }
{
    let before = asked.recording.last().tree();
    let after = asked.repair.state().tree();
    let changes = file_changes(alloc, before, after)?;
    let count = changes.len();
    let whole = whole_changes(alloc, changes)?;
    tell_left_out(alloc, progress, count.saturating_sub(whole.len()))?;
    patch_of(alloc, whole.as_slice())
}

/// Returns the patch of the repair that is asked for.
pub(crate) fn patch_answer<'a, R: Threads + Sync + AllocGlobal, P: Progress>(
    rt: &R,
    progress: &P,
    inputs: &Inputs<'a>,
    request: RepairRequest<'a>,
) -> Result<Answer, Stop<'a>>
    ensures ok { IfOk result (λ answer.
        Says (IsPatch (inputs_view inputs.now) (repair_view request.entry)) (answer_view answer)) }
    ensures err { IfErr result (StopsAsked (inputs_view inputs.now) (repair_view request.entry)) }
{
    let asked = asked_repair(rt, progress, inputs, request, Check::Unwanted)?;
    let text = patch_bytes(rt.alloc(), progress, &asked)?;
    Ok(Answer { text, is_no: false })
}
