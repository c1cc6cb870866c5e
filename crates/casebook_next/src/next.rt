//! The next line that has to be run for real.
ghost use Rattle.std.specs.Prelude.{◌≡◌, IfOk};
ghost use Rattle.std.specs.List.{find};
ghost use Rattle.std.specs.Option.{option_copied};
ghost use Rattle.casebook_next.specs.Next.{IsNextLine, has_text, least, lesser, line_with, number_at};

use crate::NoMem;
use crate::texts::{modelled_texts, observed_texts};
use casebook_account::{Machine, MachineLine};
use casebook_real::{BasedText, first_without_basis, next_to_run};
use retro_keep::{Edit, Edits, Recording};
use retro_redo::Repair;
use std::alloc::Global;

/// Returns the lesser of two numbers.
fn least(m: u32, n: u32) -> u32
    ensures { result ≡ least m n }
{
    if m <= n { m } else { n }
}

/// Returns the lesser of two numbers, of which some may be missing.
fn lesser(one: Option<u32>, other: Option<u32>) -> Option<u32>
    ensures { result ≡ lesser one other }
{
    match (one, other) {
        (None, number) => number,
        (Some(number), None) => Some(number),
        (Some(m), Some(n)) => Some(least(m, n)),
    }
}

/// Returns the number of the text at an index.
fn number_at(texts: &[BasedText], index: Option<usize>) -> Option<u32>
    ensures { result ≡ number_at texts.now index }
{
    match index {
        Some(index) => texts.get(index).map(|text| text.number),
        None => None,
    }
}

/// Returns whether a line has the text with a number.
fn has_text(line: &MachineLine, number: u32) -> bool
    ensures { result ≡ has_text number line.now }
{
    line.first <= number && number < line.end
}

/// Returns the line that has the text with a number.
fn line_with_text(lines: &[MachineLine], number: u32) -> Option<&MachineLine>
    ensures { option_copied result ≡ find (has_text number) lines.now }
{
    for line in lines {
        if has_text(line, number) {
            return Some(line);
        }
    }
    None
}

/// Returns the line that has the text with a number, if there is a number.
fn line_with(lines: &[MachineLine], number: Option<u32>) -> Option<&MachineLine>
    ensures { option_copied result ≡ line_with lines.now number }
{
    match number {
        Some(number) => line_with_text(lines, number),
        None => None,
    }
}

/// Returns the line of a machine that has to be run for real next, or `None` if there is none.
///
/// `recording` is the one that explains the machine, and `edits` are those of its texts by which
/// `repair` was made. Takes time in the number of lines, and of notes of the repaired recording.
pub fn next_line<'m>(
    alloc: Global,
    machine: &'m Machine,
    recording: &Recording,
    edits: &[Edit],
    repair: &Repair,
) -> Result<Option<&'m MachineLine>, NoMem>
    ensures { IfOk result (λ next. IsNextLine edits.now recording.now machine.entry.now.lines.items
        repair.now (option_copied next)) }
{
    let lines = machine.lines.as_slice();
    let by_number = Edits::of(alloc, edits)?;
    let observed = observed_texts(alloc, lines)?;
    let modelled = modelled_texts(alloc, &by_number, recording, lines)?;
    let again = next_to_run(alloc, repair, edits, observed.as_slice())?;
    let index = first_without_basis(alloc, repair, modelled.as_slice())?;
    let other = number_at(modelled.as_slice(), index);
    Ok(line_with(lines, lesser(again, other)))
}
