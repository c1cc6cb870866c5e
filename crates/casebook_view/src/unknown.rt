//! The lines of a repair that aren't understood.
ghost use Rattle.std.specs.Prelude.{◌≡◌, IfOk, Some};
ghost use Rattle.std.specs.List.{list_any};
ghost use Rattle.casebook_profile.specs.UnknownLines.{unknown_lines_of};
ghost use Rattle.casebook_view.specs.Unknown.{has_other_text, is_replaced, unknown_in};
ghost use Rattle.casebook_view.specs.Obstacles.{AreObstacles};
ghost use Rattle.casebook_view.specs.inner.Obstacles.{AreReplaced};

use crate::NoMem;
use crate::case::Case;
use crate::case_obstacles::CaseObstacles;
use crate::obstacles::Obstacles;
use casebook_profile::{UnknownLine, unknown_lines};
use retro_keep::{Noted, Recording};
use std::alloc::Global;

/// Returns why the lines of a recording aren't understood.
fn obstacles_of(alloc: Global, recording: &Recording) -> Result<Obstacles, NoMem>
    ensures { IfOk result (AreObstacles (unknown_lines_of recording.now)) }
{
    let unknown = unknown_lines(alloc, recording)?;
    Obstacles::of(alloc, unknown.as_slice())
}

/// Returns whether a line has another text in its second run.
fn has_other_text(old: &Noted, new: &Noted) -> bool
    ensures { result ≡ has_other_text (Some old.now) (Some new.now) }
{
    old.text != new.text
}

/// Returns whether a line runs another text in the repaired recording.
pub(crate) fn is_replaced(case: &Case<'_>, number: u32) -> bool
    ensures { result ≡ is_replaced case.now.recording case.now.repair.recording number }
{
    match (case.recorded(number), case.repaired(number)) {
        (Some(old), Some(new)) => has_other_text(old, new),
        _ => false,
    }
}

/// Returns whether some line runs another text in the repaired recording.
fn is_any_replaced(case: &Case<'_>) -> bool
    ensures { result ≡ list_any
        (λ line. is_replaced case.now.recording case.now.repair.recording line.0)
        case.now.recording.lines }
{
    let lines = case.recording().lines();
    lines.iter().any(|line| is_replaced(case, line.0))
}

/// Returns why lines aren't understood that run another text in the repaired recording. What it
/// says of other lines is arbitrary.
pub(crate) fn replaced_obstacles(alloc: Global, case: &Case<'_>) -> Result<Obstacles, NoMem>
    ensures { IfOk result (AreReplaced case.now.recording case.now.repair.recording) }
{
    if is_any_replaced(case) {
        obstacles_of(alloc, &case.repair().recording)
    } else {
        Ok(Obstacles::new(alloc))
    }
}

/// Returns the lines of a repair that aren't understood, in order.
///
/// Of lines that were played these are the ones whose recorded text isn't understood. Of lines that
/// a recorder saw these are the ones that it observed, that are run again and that run their own
/// texts: they have the obstacle `Need`. Of both these are also the lines that run another text in
/// the repaired recording that isn't understood.
pub fn unknown_in(alloc: Global, case: &Case<'_>) -> Result<Vec<UnknownLine>, NoMem>
    ensures { IfOk result (λ found. found.items
        ≡ unknown_in case.now.source case.now.recording case.now.repair) }
{
    let obstacles = CaseObstacles::of(alloc, case)?;
    let mut found = Vec::new(alloc);
    for line in case.recording().lines() {
        if let Some(obstacle) = obstacles.at(case, line.0) {
            found.push(UnknownLine {
                number: line.0,
                obstacle,
            })?;
        }
    }
    Ok(found)
}
