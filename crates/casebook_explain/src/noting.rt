//! The recording of told lines.
ghost use Rattle.std.specs.Prelude.{◌≡◌, ◌≤◌, ◌⊎◌, ◌^◌, IfErr, IfOk, OnOk, flat_map, length};
ghost use Rattle.retro_keep.specs.Recording.{AllRecorded};
ghost use Rattle.casebook_explain.specs.Noting.{needs_noted, numbered, recorded_lines, texts_of};
ghost use Rattle.casebook_explain.specs.Noting.{with_needs};
ghost use Rattle.casebook_explain.specs.inner.Sound.{AreRuns, HaveRuns};
ghost use Rattle.casebook_explain.specs.declared.tell_fault.TellFault.TheVariants as faults;

use crate::NoMem;
use crate::tell_fault::{LINE_LIMIT, TellFault};
use crate::told::{Told, ToldLine};
use casebook_needs::Need;
use retro_keep::{Noted, Recording};
use retro_tree::Notes;
use std::alloc::Global;

/// What a recording has as the notes of lines.
#[derive(Clone, Copy, Debug, Drop, PartialEq, Eq)]
pub enum Noting {
    /// What lines need, and then the notes of their runs.
    WithNeeds,
    /// The notes of their runs alone, as `retro record` has them.
    RunsAlone,
}

/// Returns a text with needs as notes before its own.
fn with_needs(alloc: Global, needs: Vec<Need>, noted: Noted) -> Result<Noted, NoMem>
    ensures { IfOk result (λ more. more ≡ with_needs needs.items noted) }
{
    let mut notes = Vec::with_capacity(alloc, needs.len())?;
    for need in needs {
        notes.push(need.into_note())?;
    }
    for note in noted.notes.as_slice() {
        notes.push(note.copy()?)?;
    }
    Ok(Noted {
        sid: noted.sid,
        text: noted.text,
        notes: Notes::of(alloc, notes)?,
        output: noted.output,
    })
}

/// Returns the needs that are noted.
fn needs_noted(alloc: Global, noting: Noting, needs: Vec<Need>) -> Vec<Need>
    ensures { result.items ≡ needs_noted noting needs.items }
{
    match noting {
        Noting::WithNeeds => needs,
        Noting::RunsAlone => Vec::new(alloc),
    }
}

/// Returns the texts of a line, with their notes and outputs. The needs are notes of the first one,
/// if they are noted.
#[tactic(auto, using(crate::proofs::Runs::no_runs, crate::proofs::Runs::runs_before))]
fn texts_of(alloc: Global, noting: Noting, line: ToldLine) -> Result<Vec<Noted>, NoMem>
    ensures value { IfOk result (λ texts. texts.items ≡ texts_of noting line) }
    ensures runs { OnOk result (AreRuns line.runs.items) }
{
    let ToldLine {
        session: _,
        is_modelled: _,
        needs,
        runs,
    } = line;
    let needs = needs_noted(alloc, noting, needs);
    let mut texts = Vec::with_capacity(alloc, runs.len())?;
    let mut runs = runs.into_iter();
    if let Some(run) = runs.next() {
        texts.push(with_needs(alloc, needs, Noted::of(run))?)?;
    }
    for run in runs {
        texts.push(Noted::of(run))?;
    }
    Ok(texts)
}

/// Returns the texts of all lines.
#[tactic(auto, using(crate::proofs::Runs::no_lines))]
fn all_texts(alloc: Global, noting: Noting, lines: Vec<ToldLine>) -> Result<Vec<Noted>, NoMem>
    ensures value { IfOk result (λ texts. texts.items ≡ flat_map (texts_of noting) lines.items) }
    ensures runs { OnOk result (HaveRuns lines.items) }
{
    let mut texts = Vec::new(alloc);
    for line in lines {
        texts.append(&mut texts_of(alloc, noting, line)?)?;
    }
    Ok(texts)
}

/// Numbers texts from 1 on.
fn numbered(alloc: Global, texts: Vec<Noted>) -> Result<Vec<(u32, Noted)>, TellFault>
    ensures value { IfOk result (λ lines. lines.items ≡ numbered 1 texts.items) }
    ensures fault { IfErr result (λ fault.
        fault ≡ faults.NoMem ⊎ fault ≡ faults.TooManyLines × 2 ^ 32 ≤ length texts.items) }
{
    if texts.len() >= LINE_LIMIT {
        return Err(TellFault::TooManyLines);
    }
    let mut lines = Vec::with_capacity(alloc, texts.len())?;
    let mut number = 0_u32;
    for text in texts {
        number += 1;
        lines.push((number, text))?;
    }
    Ok(lines)
}

impl Told {
    /// Returns the recording of the lines: their texts, numbered from 1 on, with their notes and
    /// outputs. If needs are noted, what a line needs is noted before what its first text does.
    ///
    /// # Errors
    ///
    /// Returns `TellFault::TooManyLines` if there are more texts than can be numbered.
    pub fn into_recording(self, alloc: Global, noting: Noting) -> Result<Recording, TellFault>
        ensures recording { IfOk result (λ r.
            r ≡ record { first = self.first; from = 1; lines = recorded_lines noting self.lines }) }
        ensures recorded { IfOk result (λ r. AllRecorded r.lines r.first) }
        ensures fault { IfErr result (λ fault. fault ≡ faults.NoMem
            ⊎ fault ≡ faults.TooManyLines
            × 2 ^ 32 ≤ length (flat_map (texts_of noting) self.lines)) }
    {
        let (first, lines, last) = self.into_parts();
        let lines = numbered(alloc, all_texts(alloc, noting, lines)?)?;
        Ok(Recording::of_well_formed(first, 1, lines, last))
    }
}
