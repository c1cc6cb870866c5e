//! Which line of a log isn't as noted.
use casebook_about::Labels;
use casebook_check::{NoMem, unlike_lines};
use casebook_text::text_of_lines;
use retro_keep::{Noted, Recording, Unlike, first_unlike};
use retro_rows::{fail, text};
use retro_tree::{Bytes, Notes};
use std::alloc::Global;
use std::test::Fail;

/// Gives a line the notes of another one.
fn copy_notes(line: &mut Noted, other: &Noted) -> Result<(), NoMem> {
    line.notes = other.notes.copy()?;
    Ok(())
}

/// Gives a line another output.
fn change_output(alloc: Global, line: &mut Noted) -> Result<(), NoMem> {
    line.output = Bytes::of(Vec::from_slice(alloc, b"gone\n")?);
    Ok(())
}

/// Takes the notes of a line.
fn take_notes(alloc: Global, line: &mut Noted) -> Result<(), NoMem> {
    line.notes = Notes::new(alloc)?;
    Ok(())
}

/// Changes a line: the third one gets the notes of the first (`notes`), the fourth prints another
/// text (`output`) or has no notes (`no notes`).
fn forge(alloc: Global, lines: &mut [(u32, Noted)], forgery: &str) -> Result<(), NoMem> {
    match (forgery, lines) {
        ("notes", [first, _, line, ..]) => copy_notes(&mut line.1, &first.1),
        ("output", [_, _, _, line, ..]) => change_output(alloc, &mut line.1),
        ("no notes", [_, _, _, line, ..]) => take_notes(alloc, &mut line.1),
        _ => Ok(()),
    }
}

/// Returns a recording with a line changed, or `None` if it isn't a recording then.
fn forged(alloc: Global, recording: Recording, forgery: &str) -> Result<Option<Recording>, NoMem> {
    let (first, from, mut lines, _) = recording.into_parts();
    forge(alloc, lines.as_mut_slice(), forgery)?;
    Recording::new(alloc, first, from, lines)
}

/// Returns what is said of a line that isn't as noted.
fn unlike_text(
    alloc: Global,
    labels: &Labels,
    noted: &Noted,
    unlike: &Unlike,
) -> Result<String, NoMem> {
    let lines = unlike_lines(alloc, labels, noted, unlike)?;
    text_of_lines(alloc, lines.as_slice())
}

/// Returns what is said of a recording with a line that isn't as noted.
fn said_of(
    alloc: Global,
    labels: &Labels,
    recording: &Recording,
    unlike: &Unlike,
) -> Result<String, NoMem> {
    match recording.run_of(unlike.number) {
        Some(noted) => unlike_text(alloc, labels, noted, unlike),
        None => text(alloc, "no such line"),
    }
}

/// Returns what is said of a recording: nothing if it is one of its own lines.
fn said(alloc: Global, labels: &Labels, recording: &Recording) -> Result<String, NoMem> {
    match first_unlike(alloc, recording)? {
        Some(unlike) => said_of(alloc, labels, recording, &unlike),
        None => Ok(String::new(alloc)),
    }
}

/// Returns what is said of a recording with a line changed.
pub fn unlike(
    alloc: Global,
    labels: &Labels,
    recording: Recording,
    forgery: &str,
) -> Result<String, Fail> {
    match forged(alloc, recording, forgery)? {
        Some(recording) => Ok(said(alloc, labels, &recording)?),
        None => fail("no recording"),
    }
}
