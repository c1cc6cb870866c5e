//! Lines that a repair keeps without reading them.
ghost use Rattle.std.specs.Prelude.{◌≡◌, ◌<◌, ◌≤◌, ◌++◌, drop, IfSome, length, map};
ghost use Rattle.std.specs.Prelude.{OnErr, OnOk, replicate, take};
ghost use Rattle.std.specs.FinMap as map_of;
ghost use Rattle.std.specs.List.{slice_get};
ghost use Rattle.std.specs.Option.{option_copied};
ghost use Rattle.retro_tree.specs.Exact.{IsExact};
ghost use Rattle.retro_tree.specs.declared.state.State.{State};
ghost use Rattle.retro_keep.specs.Edit.{sooner};
ghost use Rattle.retro_redo.specs.Editing.{AreLines};
ghost use Rattle.retro_difference.specs.Difference.{IsAmong};
ghost use Rattle.retro_redo.specs.Skipping.{AreUnmet};
ghost use Rattle.retro_redo.specs.inner.Keeping.{kept_line};
ghost use Rattle.retro_redo.specs.declared.step.Step.TheVariants as steps;

use crate::step::Step;
use crate::verdict::{SettledLine, Verdict};
use retro_difference::Difference;
use retro_keep::{Edits, Noted, Recording};
use retro_tree::NoMem;

/// Returns the lines in a row from the index `from` on that are neither edited nor met.
/// `difference` has the cells in which the states differ before them.
///
/// No line's notes are read. The next line that is edited or met is found by its number.
pub(crate) fn unmet_lines<'a>(
    recording: &'a Recording,
    from: usize,
    edits: &Edits<'_>,
    difference: &Difference,
) -> &'a [(u32, Noted)]
    requires { AreLines edits.now recording.now }
    ensures lines { result.now ≡ take (length result.now) (drop from recording.now.lines) }
    ensures unmet { let rest = drop from recording.now.lines in IsAmong rest difference.now
        → ((s t : State) → IsExact difference.now.overlay s t
        → AreUnmet (map_of.get edits.now) (length result.now) rest s t)
        × IsAmong (drop (length result.now) rest) difference.now }
{
    let lines = recording.lines();
    let Some(line) = line_at(lines, from) else {
        return &[];
    };
    let rest = lines_from(lines, from);
    match sooner(edits.next_from(line.0), difference.next()) {
        None => rest,
        Some(number) => &rest[..rest.partition_point(|line| line.0 < number)],
    }
}

/// Returns the lesser of two numbers, or the only one that is given.
fn sooner(one: Option<u32>, two: Option<u32>) -> Option<u32>
    ensures { result ≡ sooner one two }
{
    match (one, two) {
        (Some(one), Some(two)) => Some(if one < two { one } else { two }),
        (Some(only), None) | (None, Some(only)) => Some(only),
        (None, None) => None,
    }
}

/// Returns the line at an index, or `None` if there are fewer lines. It is a function of its own
/// for the prover: its contract also says that the index of a line is within the lines.
fn line_at(lines: &[(u32, Noted)], place: usize) -> Option<&(u32, Noted)>
    ensures line { option_copied result ≡ slice_get lines.now place }
    ensures place { IfSome result (λ _. place < length lines.now) }
{
    lines.get(place)
}

/// Returns the lines from an index on. It is a function of its own for the prover: its contract
/// says so by `drop`, as the definitions do.
fn lines_from(lines: &[(u32, Noted)], place: usize) -> &[(u32, Noted)]
    requires { place ≤ length lines.now }
    ensures { result.now ≡ drop place lines.now }
{
    &lines[place..]
}

/// Appends for each of some unmet lines the choice to keep it, and what is left of it.
pub(crate) fn push_kept(
    choices: &mut Vec<Step>,
    lines: &mut Vec<SettledLine>,
    unmet: &[(u32, Noted)],
) -> Result<(), NoMem>
    ensures choices { OnOk result (choices.new.items
        ≡ choices.old.items ++ replicate (length unmet.now) steps.Keep) }
    ensures lines { OnOk result (lines.new.items ≡ lines.old.items ++ map kept_line unmet.now) }
    ensures err { OnErr result ((choices.new.items ≡ choices.old.items)
        × (lines.new.items ≡ lines.old.items)) }
{
    choices.reserve(unmet.len())?;
    lines.reserve(unmet.len())?;
    for line in unmet {
        choices.push_reserved(Step::Keep);
        lines.push_reserved(SettledLine {
            number: line.0,
            verdict: Verdict::Kept,
            is_met: false,
        });
    }
    Ok(())
}
