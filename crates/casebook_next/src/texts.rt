//! The texts of observed lines, and those of modelled lines with what they rest on.
ghost use Rattle.std.specs.Prelude.{◌≡◌, ◌≤◌, ◌++◌, ◌-◌, IfOk, OnOk, is_none};
ghost use Rattle.std.specs.FinMap as map_of;
ghost use Rattle.std.specs.List.{filter, range_with_len};
ghost use Rattle.std.specs.Option.{option_copied};
ghost use Rattle.casebook_account.specs.Edits.{text_numbers};
ghost use Rattle.casebook_cause.specs.Cause.{notes_of};
ghost use Rattle.casebook_explain.specs.Places.{shell_path};
ghost use Rattle.casebook_next.specs.Next.{based_text, is_about, is_modelled};
ghost use Rattle.casebook_next.specs.Next.{modelled_texts, observed_texts};

use crate::NoMem;
use casebook_account::MachineLine;
use casebook_explain::shell_path;
use casebook_real::BasedText;
use retro_keep::{Edits, Noted, Recording};
use retro_tree::{Ask, Note, Notes, Path};
use std::alloc::Global;

/// Appends the numbers from one on and before another one.
fn push_numbers(numbers: &mut Vec<u32>, first: u32, end: u32) -> Result<(), NoMem>
    requires { first ≤ end }
    ensures { OnOk result
        (numbers.new.items ≡ numbers.old.items ++ range_with_len first (end - first)) }
{
    for number in first..end {
        numbers.push(number)?;
    }
    Ok(())
}

/// Appends the numbers of a line's texts.
fn push_texts(numbers: &mut Vec<u32>, line: &MachineLine) -> Result<(), NoMem>
    ensures { OnOk result (numbers.new.items ≡ numbers.old.items ++ text_numbers line.now) }
{
    if line.first < line.end {
        push_numbers(numbers, line.first, line.end)?;
    }
    Ok(())
}

/// Returns the numbers of the texts of the observed lines, in order.
pub(crate) fn observed_texts(alloc: Global, lines: &[MachineLine]) -> Result<Vec<u32>, NoMem>
    ensures { IfOk result (λ numbers. numbers.items ≡ observed_texts lines.now) }
{
    let mut numbers = Vec::new(alloc);
    for line in lines {
        if line.is_observed {
            push_texts(&mut numbers, line)?;
        }
    }
    Ok(numbers)
}

/// Returns whether a note is the query for what a file holds.
fn is_about(path: &Path, note: &Note) -> bool
    ensures { result ≡ is_about path.now note.now }
{
    match note {
        Note::Asked(Ask::Bytes(asked), _) => asked == path,
        _ => false,
    }
}

/// Returns copies of the queries for what a file holds, among notes.
fn queries_about(alloc: Global, path: &Path, notes: &[Note]) -> Result<Vec<Note>, NoMem>
    ensures { IfOk result (λ found. found.items ≡ filter (is_about path.now) notes.now) }
{
    let mut found = Vec::new(alloc);
    for note in notes {
        if is_about(path, note) {
            found.push(note.copy()?)?;
        }
    }
    Ok(found)
}

/// Returns on what a modelled text of a session rests.
fn basis_of(alloc: Global, session: u32, text: Option<&Noted>) -> Result<Notes, NoMem>
    ensures { IfOk result (λ basis. basis
        ≡ filter (is_about (shell_path session)) (notes_of (option_copied text.entry))) }
{
    let shell = shell_path(alloc, session)?;
    let found = match text {
        Some(noted) => queries_about(alloc, &shell, noted.notes.as_slice())?,
        None => Vec::new(alloc),
    };
    Notes::of(alloc, found)
}

/// Returns the text of a modelled line, with what it rests on.
fn based_text(alloc: Global, recording: &Recording, line: &MachineLine) -> Result<BasedText, NoMem>
    ensures { IfOk result (λ text. text ≡ based_text recording.now line.now) }
{
    Ok(BasedText {
        number: line.first,
        basis: basis_of(alloc, line.session, recording.run_of(line.first))?,
    })
}

/// Returns whether a line is modelled, and its text isn't edited.
fn is_modelled(edits: &Edits<'_>, line: &MachineLine) -> bool
    ensures { result ≡ is_modelled (map_of.get edits.now) line.now }
{
    !line.is_observed && edits.get(line.first).is_none()
}

/// Returns the texts of the modelled lines that nothing edits, with what they rest on, in order.
pub(crate) fn modelled_texts(
    alloc: Global,
    edits: &Edits<'_>,
    recording: &Recording,
    lines: &[MachineLine],
) -> Result<Vec<BasedText>, NoMem>
    ensures { IfOk result (λ texts.
        texts.items ≡ modelled_texts (map_of.get edits.now) recording.now lines.now) }
{
    let mut texts = Vec::new(alloc);
    for line in lines {
        if is_modelled(edits, line) {
            texts.push(based_text(alloc, recording, line)?)?;
        }
    }
    Ok(texts)
}
