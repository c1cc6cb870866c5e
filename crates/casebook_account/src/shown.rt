//! Recordings as they are shown: each line of a case as one line, with its typed text.
ghost use Rattle.std.specs.Prelude.{◌≡◌, ◌++◌, IfErr, IfOk, OnOk, not};
ghost use Rattle.std.specs.List.{filter, flat_map, prefix_len};
ghost use Rattle.retro_keep.specs.Recording.{noted_at};
ghost use Rattle.casebook_account.specs.Ours.{is_our_note};
ghost use Rattle.casebook_account.specs.Shown.{HasNoShown, IsUnshown, front_below, is_below, machine_notes};
ghost use Rattle.casebook_account.specs.Shown.{notes_in, output_in, recording_shown, rest_from};
ghost use Rattle.casebook_account.specs.Shown.{shown, shown_from, text_shown, texts_shown};

use crate::NoMem;
use crate::account::Account;
use crate::account_fault::AccountFault;
use crate::machine_line::MachineLine;
use crate::ours::{is_our_note, without_ours};
use retro_keep::{Noted, Recording};
use retro_tree::{Bytes, Note, Notes, Text};
use std::alloc::Global;

/// Returns how many lines there are before the first one that hasn't a number below `end`.
#[tactic(auto, using(crate::proofs::Fronts::counting))]
fn count_below(lines: &[(u32, Noted)], end: u32) -> usize
    ensures { result ≡ prefix_len (is_below end) lines.now }
{
    for (index, line) in lines.iter().enumerate() {
        if line.0 >= end {
            return index;
        }
    }
    lines.len()
}

/// Splits lines before the first one that hasn't a number below `end`.
fn split_below(lines: &[(u32, Noted)], end: u32) -> (&[(u32, Noted)], &[(u32, Noted)])
    ensures front { result.0.now ≡ front_below end lines.entry.now }
    ensures rest { result.1.now ≡ rest_from end lines.entry.now }
{
    lines.split_at(count_below(lines, end))
}

/// Appends the notes of a text, but for those of what only a recording has.
fn push_notes(notes: &mut Vec<Note>, text: &(u32, Noted)) -> Result<(), NoMem>
    ensures { OnOk result (notes.new.items
        ≡ notes.old.items ++ filter (λ note. not (is_our_note note)) (notes_in text.now)) }
{
    for note in text.1.notes.as_slice() {
        if !is_our_note(note) {
            notes.push(note.copy()?)?;
        }
    }
    Ok(())
}

/// Returns the notes of texts, one after the other, but for those of what only a recording has.
fn machine_notes(alloc: Global, texts: &[(u32, Noted)]) -> Result<Notes, NoMem>
    ensures { IfOk result (λ notes. notes ≡ machine_notes texts.now) }
{
    let mut notes = Vec::new(alloc);
    for text in texts {
        push_notes(&mut notes, text)?;
    }
    Notes::of(alloc, notes)
}

/// Returns what texts printed, one after the other.
fn outputs(alloc: Global, texts: &[(u32, Noted)]) -> Result<Bytes, NoMem>
    ensures { IfOk result (λ output. output ≡ flat_map output_in texts.now) }
{
    let mut output = Bytes::new(alloc);
    for text in texts {
        output.extend(text.1.output.as_slice())?;
    }
    Ok(output)
}

/// Returns the text that was typed, if the first text of a line is the recorded one, and otherwise
/// that text.
fn text_shown(recording: &Recording, line: &MachineLine, text: &(u32, Noted)) -> Result<Text, NoMem>
    ensures { IfOk result (λ found. found
        ≡ text_shown line.now (noted_at text.now.0 recording.now.lines) text.now.1) }
{
    match recording.run_of(text.0) {
        Some(old) if old.text == text.1.text => line.text.copy(),
        _ => text.1.text.copy(),
    }
}

/// Appends a line with all that its texts did, if some ran.
fn push_shown(
    alloc: Global,
    shown: &mut Vec<(u32, Noted)>,
    recording: &Recording,
    line: &MachineLine,
    texts: &[(u32, Noted)],
) -> Result<(), NoMem>
    ensures { OnOk result (shown.new.items
        ≡ shown.old.items ++ texts_shown recording.now line.now texts.now) }
{
    let Some(text) = texts.first() else {
        return Ok(());
    };
    let noted = Noted {
        sid: text.1.sid,
        text: text_shown(recording, line, text)?,
        notes: machine_notes(alloc, texts)?,
        output: outputs(alloc, texts)?,
    };
    shown.push((line.number, noted))?;
    Ok(())
}

/// Returns the lines of a machine, by texts of which some may not have run.
fn shown_from(
    alloc: Global,
    recording: &Recording,
    lines: &[MachineLine],
    texts: &[(u32, Noted)],
) -> Result<Vec<(u32, Noted)>, NoMem>
    ensures { IfOk result (λ shown.
        shown.items ≡ shown_from recording.now lines.now texts.now) }
{
    let mut shown = Vec::with_capacity(alloc, lines.len())?;
    let mut rest = texts;
    for line in lines {
        let (own, others) = split_below(rest, line.end);
        push_shown(alloc, &mut shown, recording, line, own)?;
        rest = others;
    }
    Ok(shown)
}

/// Returns a recording of texts as it is shown, by the recording of the case.
fn shown_recording(
    alloc: Global,
    recording: &Recording,
    lines: &[MachineLine],
    some: &Recording,
) -> Result<Recording, AccountFault>
    ensures ok { IfOk result (λ shown.
        shown ≡ recording_shown recording.now lines.now some.now) }
    ensures err { IfErr result (IsUnshown (recording_shown recording.now lines.now some.now)) }
{
    let first = without_ours(alloc, some.first())?;
    let lines = shown_from(alloc, recording, lines, some.lines())?;
    match Recording::new(alloc, first, 1, lines)? {
        Some(shown) => Ok(shown),
        None => Err(AccountFault::Unshown),
    }
}

impl Account {
    /// Returns a recording of the account's texts, or of a repair of them, as it is shown: each line
    /// of a case as one line. A recording of a log is returned as it is.
    ///
    /// # Errors
    ///
    /// `Unshown` if the lines of a case have no such recording.
    pub fn shown(&self, alloc: Global, some: Recording) -> Result<Recording, AccountFault>
        ensures ok { IfOk result (λ found. found ≡ shown self.now some) }
        ensures err { IfErr result (HasNoShown self.now some) }
    {
        match &self.machine {
            Some(machine) => {
                shown_recording(alloc, &self.recording, machine.lines.as_slice(), &some)
            }
            None => Ok(some),
        }
    }

    /// Returns the account with its own recording as it is shown.
    ///
    /// # Errors
    ///
    /// `Unshown` if the lines of a case have no such recording.
    pub fn into_shown(self, alloc: Global) -> Result<Account, AccountFault>
        ensures ok { IfOk result (λ found. found.recording ≡ shown self self.recording) }
        ensures machine { IfOk result (λ found. found.machine ≡ self.machine) }
        ensures err { IfErr result (HasNoShown self self.recording) }
    {
        let Account { recording, machine } = self;
        let recording = match &machine {
            Some(machine) => {
                shown_recording(alloc, &recording, machine.lines.as_slice(), &recording)?
            }
            None => recording,
        };
        Ok(Account { recording, machine })
    }
}
