//! Tests of edits before they are made. No test allocates.
ghost use Rattle.std.specs.Prelude.{◌≡◌, IsTrue, map, not};
ghost use Rattle.std.specs.Option.{option_copied};
ghost use Rattle.retro_keep.specs.Edit.{edit_of, edited_number, edits_tested, is_among, is_edit};
ghost use Rattle.retro_keep.specs.Edit.{least, not_lines, sooner, too_early, twice_edited};
ghost use Rattle.retro_keep.specs.Script.{rises_from};

use crate::edit::Edit;
use crate::edit_fault::EditRefusal;
use crate::numbered::{Numbered, has_number};

/// Returns `Ok` if edits can be made of lines that begin at the number `from` and whose numbers
/// rise, or the first refusal: of the least number that two different edits name, then of the least
/// one, from 1 on, that is below `from`, and then of the least one that no line has.
#[tactic(auto, unfolding(crate::specs::Edit::edits_tested))]
pub(crate) fn test_edits<L: Numbered>(
    from: u32,
    lines: &[L],
    edits: &[Edit],
) -> Result<(), EditRefusal>
    requires { IsTrue (rises_from 0 (map L.number lines.now)) }
    ensures { result ≡ edits_tested from (is_among (map L.number lines.now)) edits.now }
{
    if let Some(number) = least_edited_twice(edits) {
        return Err(EditRefusal::TwoEdits(number));
    }
    if let Some(number) = least_too_early(from, edits) {
        return Err(EditRefusal::BeforeCheckpoint(number));
    }
    if let Some(number) = least_missing(lines, edits) {
        return Err(EditRefusal::NoSuchLine(number));
    }
    Ok(())
}

/// Returns the least number that two different edits name, or `None` if there is none. An edit
/// whose number is above all earlier ones is the first of its line. Only the others are compared
/// with the first edit of their line.
pub(crate) fn least_edited_twice(edits: &[Edit]) -> Option<u32>
    ensures { result ≡ least (twice_edited edits.now) }
{
    let mut found = None;
    let mut bound = 0;
    for edit in edits {
        let number = edit.number();
        if u64::from(number) >= bound {
            bound = u64::from(number) + 1;
        } else if differs_from_first(edits, edit) {
            found = sooner(found, Some(number));
        }
    }
    found
}

/// Returns whether an edit differs from the first of the edits that names its line.
fn differs_from_first(edits: &[Edit], edit: &Edit) -> bool
    ensures { result ≡ not (is_edit (edit_of edits.now (edited_number edit.now)) edit.now) }
{
    match first_of(edits, edit.number()) {
        Some(first) => !first.is_equal(edit),
        None => true,
    }
}

/// Returns the first of the edits that names a line, or `None` if none does.
fn first_of(edits: &[Edit], number: u32) -> Option<&Edit>
    ensures { option_copied result ≡ edit_of edits.now number }
{
    for edit in edits {
        if edit.number() == number {
            return Some(edit);
        }
    }
    None
}

/// Returns the least edited number, from 1 on, that is below `from`, or `None` if there is none.
fn least_too_early(from: u32, edits: &[Edit]) -> Option<u32>
    ensures { result ≡ least (too_early from edits.now) }
{
    let mut found = None;
    for edit in edits {
        let number = edit.number();
        if 0 < number && number < from {
            found = sooner(found, Some(number));
        }
    }
    found
}

/// Returns the least edited number that no line has, or `None` if there is none. The lines'
/// numbers must rise.
pub(crate) fn least_missing<L: Numbered>(lines: &[L], edits: &[Edit]) -> Option<u32>
    requires { IsTrue (rises_from 0 (map L.number lines.now)) }
    ensures { result ≡ least (not_lines (is_among (map L.number lines.now)) edits.now) }
{
    let mut found = None;
    for edit in edits {
        let number = edit.number();
        if !has_number(lines, number) {
            found = sooner(found, Some(number));
        }
    }
    found
}

/// Returns the lesser of two numbers, or the only one that is given.
fn sooner(one: Option<u32>, two: Option<u32>) -> Option<u32>
    ensures { result ≡ sooner one two }
{
    match (one, two) {
        (Some(one), Some(two)) => Some(if one < two { one } else { two }),
        (Some(only), None) | (None, Some(only)) => Some(only),
        (None, None) => None,
    }
}
