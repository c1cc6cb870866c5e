//! Why lines are run again.
ghost use Rattle.std.specs.Prelude.{◌≡◌, IfOk, IsTrue, List, map};
ghost use Rattle.std.specs.Option.{option_copied};
ghost use Rattle.retro_keep.specs.Recorded.{recorded_before};
ghost use Rattle.retro_keep.specs.Script.{rises_from};
ghost use Rattle.retro_keep.specs.declared.edit.Edit.{Edit as EditValue};
ghost use Rattle.casebook_view.specs.CaseLines.{line_number, reason_at};
ghost use Rattle.casebook_view.specs.Reasons.{IsCauseOf, IsFailing, IsReason, IsWhy};
ghost use Rattle.casebook_view.specs.Reasons.{failing_query, has_new_text, notes_at};
ghost use Rattle.casebook_view.specs.Reasons.{origin_after, origin_by, query_at};
ghost use Rattle.casebook_view.specs.inner.NewTexts.{AreNewTexts};

use crate::NoMem;
use crate::case::Case;
use crate::case_line::CaseLine;
use crate::case_lines::line_in;
use crate::new_texts::NewTexts;
use crate::why::Why;
use casebook_cause::first_failing_note;
use retro_keep::Noted;
use retro_tree::{Ask, Note};
use std::alloc::Global;

/// Why a line is run again.
#[derive(Clone, Copy, Debug, PartialEq, Eq)]
pub struct Reason {
    /// Why it is run again.
    pub why: Why,
    /// The last line before it that changes differently what the failing query asks about, or
    /// `None` if there is no such line or no query is the reason.
    pub cause: Option<u32>,
    /// The line at which the chain of causes ends: the line itself if it has no cause.
    pub origin: u32,
}

/// Returns the query of a note, if it is one.
fn query_at(noted: &Noted, index: usize) -> Option<&Ask>
    ensures { option_copied result ≡ query_at index noted.now.notes }
{
    match noted.notes.as_slice().get(index) {
        Some(Note::Asked(ask, _)) => Some(ask),
        _ => None,
    }
}

/// Returns where the chain of a cause ends, or the cause if it isn't run again.
fn origin_after(earlier: &[CaseLine], cause: u32) -> u32
    ensures { IsTrue (rises_from 0 (map line_number earlier.now))
        → result ≡ origin_after (reason_at cause earlier.now) cause }
{
    match line_in(earlier, cause) {
        Some(line) => match line.reason {
            Some(reason) => reason.origin,
            None => cause,
        },
        None => cause,
    }
}

/// Returns where a chain ends that begins at a line and goes on at a cause.
fn origin_of(earlier: &[CaseLine], number: u32, cause: Option<u32>) -> u32
    ensures { IsTrue (rises_from 0 (map line_number earlier.now))
        → result ≡ origin_by earlier.now number cause }
{
    match cause {
        None => number,
        Some(cause) => origin_after(earlier, cause),
    }
}

/// Returns the query of a line's failing note, or `None` if no note fails.
pub fn failing_ask<'a>(case: &Case<'a>, number: u32, failing: Option<usize>) -> Option<&'a Ask>
    ensures { option_copied result
        ≡ failing_query failing (notes_at number case.now.recording) }
{
    match (case.recorded(number), failing) {
        (Some(noted), Some(index)) => query_at(noted, index),
        _ => None,
    }
}

/// Returns the index of the first note of a line that doesn't hold in the repaired state before it,
/// or `None` if all hold.
fn failing_note(alloc: Global, case: &Case<'_>, number: u32) -> Result<Option<usize>, NoMem>
    ensures { IfOk result (λ failing. IsFailing failing
        (notes_at number case.now.recording)
        (recorded_before number case.now.repair.recording)) }
{
    match case.recorded(number) {
        Some(noted) => first_failing_note(alloc, &noted.notes, &case.repaired_before(number)),
        None => Ok(None),
    }
}

/// Returns why a line is run again.
fn why_of(alloc: Global, case: &Case<'_>, texts: &NewTexts, number: u32) -> Result<Why, NoMem>
    ensures { (edits : List EditValue) → AreNewTexts edits texts.now
        → IfOk result (IsWhy (has_new_text edits number)
        (notes_at number case.now.recording)
        (recorded_before number case.now.repair.recording)) }
{
    if texts.has(number) {
        return Ok(Why::Replaced);
    }
    match failing_note(alloc, case, number)? {
        Some(index) => Ok(Why::Query(index)),
        None => Ok(Why::RunAgain),
    }
}

/// Returns the last line before a line that changes differently what a failing query asks about.
fn cause_at(
    alloc: Global,
    case: &Case<'_>,
    number: u32,
    failing: Option<usize>,
) -> Result<Option<u32>, NoMem>
    ensures { IfOk result (IsCauseOf case.now.recording case.now.repair number
        (failing_query failing (notes_at number case.now.recording))) }
{
    match failing_ask(case, number, failing) {
        Some(ask) => case.cause_of(alloc, number, ask),
        None => Ok(None),
    }
}

/// Returns why a line is run again. `earlier` are the lines before it.
pub(crate) fn reason_of(
    alloc: Global,
    case: &Case<'_>,
    texts: &NewTexts,
    earlier: &[CaseLine],
    number: u32,
) -> Result<Reason, NoMem>
    ensures { (edits : List EditValue) → AreNewTexts edits texts.now
        → IsTrue (rises_from 0 (map line_number earlier.now)) → IfOk result
        (IsReason edits case.now.recording case.now.repair earlier.now number) }
{
    let why = why_of(alloc, case, texts, number)?;
    let cause = cause_at(alloc, case, number, why.failing())?;
    Ok(Reason {
        why,
        cause,
        origin: origin_of(earlier, number, cause),
    })
}
