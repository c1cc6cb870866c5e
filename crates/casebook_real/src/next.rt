//! The next text that has to be run for real.
ghost use Rattle.std.specs.Prelude.{◌≡◌, IfOk, is_none};
ghost use Rattle.std.specs.FinMap as map_of;
ghost use Rattle.retro_keep.specs.Edit.{edit_of, is_among};
ghost use Rattle.retro_keep.specs.Recording.{RecordingValue};
ghost use Rattle.retro_redo.specs.Repair.{IsRepair, is_verdict, moments_of};
ghost use Rattle.retro_redo.specs.declared.verdict.Verdict.TheVariants.{Redone};
ghost use Rattle.casebook_real.specs.Next.{IsNext, first_to_run, must_be_run, next_to_run};
ghost use Rattle.casebook_real.specs.inner.Numbers.{has_number};

use crate::NoMem;
use crate::numbers::Numbers;
use retro_keep::{Edit, Edits};
use retro_redo::{Repair, SettledLine, Verdict};
use std::alloc::Global;

/// Returns whether a repair ran a text again.
fn is_redone(line: &SettledLine) -> bool
    ensures { result ≡ is_verdict Redone line.now.verdict }
{
    line.verdict == Verdict::Redone
}

/// Returns whether no edit names the text with a number.
fn is_unedited(edits: &Edits<'_>, number: u32) -> bool
    ensures { result ≡ is_none (map_of.get edits.now number) }
{
    edits.get(number).is_none()
}

/// Returns whether a text has to be run for real, by what a repair did with it.
fn must_be_run(line: &SettledLine, edits: &Edits<'_>, observed: &Numbers) -> bool
    ensures { result ≡ must_be_run (map_of.get edits.now) (has_number observed.now) line.now }
{
    is_redone(line) && is_unedited(edits, line.number) && observed.has(line.number)
}

/// Returns the number of the first of some texts that has to be run for real, or `None` if there is
/// none.
fn first_to_run(lines: &[SettledLine], edits: &Edits<'_>, observed: &Numbers) -> Option<u32>
    ensures { result ≡ first_to_run (map_of.get edits.now) (has_number observed.now) lines.now }
{
    lines
        .iter()
        .find(|line| must_be_run(line, edits, observed))
        .map(|line| line.number)
}

/// Returns the number of the first text that has to be run for real, or `None` if there is none.
/// That is a text of an observed line that a repair ran again though no edit names it: in an exact
/// repair one of its notes, needs included, doesn't hold in the repaired state before it. `edits`
/// are those of the repair, and `observed` has the numbers of the texts of all observed lines.
#[tactic(auto, using(crate::proofs::Verdicts::same_next))]
pub fn next_to_run(
    alloc: Global,
    repair: &Repair,
    edits: &[Edit],
    observed: &[u32],
) -> Result<Option<u32>, NoMem>
    ensures verdicts { IfOk result (λ next.
        next ≡ next_to_run (edit_of edits.now) (is_among observed.now) repair.now) }
    ensures notes { IfOk result (λ next. (r : RecordingValue)
        → IsRepair (edit_of edits.now) r repair.now
        → IsNext (edit_of edits.now) (is_among observed.now) (moments_of (edit_of edits.now) r) next) }
{
    let by_number = Edits::of(alloc, edits)?;
    let texts = Numbers::of(alloc, observed)?;
    Ok(first_to_run(repair.lines.as_slice(), &by_number, &texts))
}
