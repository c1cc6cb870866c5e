//! The compensations of a repair, separated by whom they concern.
ghost use Rattle.std.specs.Prelude.{◌≡◌, ℕ, ◌||◌, IfOk, OnOk, map};
ghost use Rattle.retro_redo.specs.Moments.{compensation_view};
ghost use Rattle.casebook_cause.specs.Compensations.{is_cancelled, is_cancelled_line};
ghost use Rattle.casebook_cause.specs.Compensations.{leaks, tellings};
ghost use Rattle.casebook_cause.specs.inner.Numbers.{has_number};

use retro_keep::Recording;
use retro_redo::{Compensation, Repair, SettledLine, Verdict};
use retro_tree::NoMem;
use std::alloc::Global;
use std::collections::BTreeSet;

/// Returns the compensations of cancelled lines in the repair of a recording, in order. What such a
/// line printed is shown to somebody who shouldn't have seen it.
pub fn leaks<'a>(
    alloc: Global,
    recorded: &'a Recording,
    repair: &'a Repair,
) -> Result<Vec<Compensation<'a>>, NoMem>
    ensures { IfOk result (λ found.
        map compensation_view found.items ≡ leaks recorded.now repair.now) }
{
    let cancelled = cancelled_lines(alloc, &repair.lines)?;
    let compensations = repair.compensations(alloc, recorded)?;
    let mut found = Vec::new(alloc);
    for compensation in &compensations {
        if cancelled.contains(&compensation.number) {
            found.push(*compensation)?;
        }
    }
    Ok(found)
}

/// Returns the compensations of lines that aren't cancelled in the repair of a recording, in order.
/// Whoever saw what such a line printed has to be told what it prints in the repaired run.
pub fn tellings<'a>(
    alloc: Global,
    recorded: &'a Recording,
    repair: &'a Repair,
) -> Result<Vec<Compensation<'a>>, NoMem>
    ensures { IfOk result (λ found.
        map compensation_view found.items ≡ tellings recorded.now repair.now) }
{
    let cancelled = cancelled_lines(alloc, &repair.lines)?;
    let compensations = repair.compensations(alloc, recorded)?;
    let mut found = Vec::new(alloc);
    for compensation in &compensations {
        if !cancelled.contains(&compensation.number) {
            found.push(*compensation)?;
        }
    }
    Ok(found)
}

/// Returns the numbers of the cancelled lines.
fn cancelled_lines(alloc: Global, lines: &[SettledLine]) -> Result<BTreeSet<u32>, NoMem>
    ensures { IfOk result (λ numbers. (n : ℕ)
        → has_number n numbers.keys ≡ is_cancelled lines.now n) }
{
    let mut numbers = BTreeSet::new(alloc);
    for line in lines {
        add_cancelled(&mut numbers, line)?;
    }
    Ok(numbers)
}

/// Adds the number of a line, if the line is cancelled.
fn add_cancelled(numbers: &mut BTreeSet<u32>, line: &SettledLine) -> Result<(), NoMem>
    ensures { OnOk result ((n : ℕ) → has_number n numbers.new.keys
        ≡ (has_number n numbers.old.keys || is_cancelled_line n line.now)) }
{
    if let Verdict::Cancelled = line.verdict {
        numbers.insert(line.number)?;
    }
    Ok(())
}
