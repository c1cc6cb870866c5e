//! The observed lines that have to be run for real.
ghost use Rattle.std.specs.Prelude.{◌≡◌, ◌++◌, ◌∷◌, [], IfOk, OnOk};
ghost use Rattle.retro_redo.specs.Repair.{numbers_with};
ghost use Rattle.retro_redo.specs.declared.verdict.Verdict.TheVariants.{Redone};
ghost use Rattle.casebook_view.specs.Unknown.{is_redone, is_to_run, lines_to_run};
ghost use Rattle.casebook_view.specs.inner.Numbers.{AreNumbers};

use crate::NoMem;
use crate::case::Case;
use crate::numbers::Numbers;
use crate::unknown::is_replaced;
use casebook_profile::{Obstacle, UnknownLine};
use retro_redo::Verdict;
use std::alloc::Global;

/// Returns whether the repair runs a line again. `redone` are the lines that it does.
fn is_redone(case: &Case<'_>, redone: &Numbers, number: u32) -> bool
    ensures { AreNumbers (numbers_with Redone case.now.repair.lines.items) redone.now
        → result ≡ is_redone case.now.repair number }
{
    redone.has(number)
}

/// Returns whether a line is run again and runs its own text.
fn is_to_run(case: &Case<'_>, redone: &Numbers, number: u32) -> bool
    ensures { AreNumbers (numbers_with Redone case.now.repair.lines.items) redone.now
        → result ≡ is_to_run case.now.recording case.now.repair number }
{
    is_redone(case, redone, number) && !is_replaced(case, number)
}

/// Appends an observed line, if it is run again and runs its own text.
fn push_to_run(
    case: &Case<'_>,
    redone: &Numbers,
    found: &mut Vec<UnknownLine>,
    number: u32,
) -> Result<(), NoMem>
    ensures { AreNumbers (numbers_with Redone case.now.repair.lines.items) redone.now → OnOk result (found.new.items
        ≡ found.old.items ++ lines_to_run (number ∷ []) case.now.recording case.now.repair) }
{
    if is_to_run(case, redone, number) {
        found.push(UnknownLine {
            number,
            obstacle: Obstacle::Need,
        })?;
    }
    Ok(())
}

/// Returns those of the observed lines that are run again and run their own texts. Something that
/// each of them depends on would be another.
pub(crate) fn lines_to_run(
    alloc: Global,
    case: &Case<'_>,
    observed: &[u32],
) -> Result<Vec<UnknownLine>, NoMem>
    ensures { IfOk result (λ found.
        found.items ≡ lines_to_run observed.now case.now.recording case.now.repair) }
{
    let numbers = case.repair().lines_with(alloc, Verdict::Redone)?;
    let redone = Numbers::of(alloc, numbers.as_slice())?;
    let mut found = Vec::new(alloc);
    for number in observed {
        push_to_run(case, &redone, &mut found, *number)?;
    }
    Ok(found)
}
