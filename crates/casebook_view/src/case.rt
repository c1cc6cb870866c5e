//! Recordings with their repairs.
ghost use Rattle.std.specs.Prelude.{◌≡◌, IfOk, Some};
ghost use Rattle.std.specs.Option.{option_copied};
ghost use Rattle.retro_keep.specs.Recorded.{recorded_before};
ghost use Rattle.retro_keep.specs.Recording.{noted_at};
ghost use Rattle.casebook_view.specs.Fates.{session_in};
ghost use Rattle.casebook_view.specs.Reasons.{IsCauseOf};
ghost use Rattle.casebook_view.specs.Sources.{source_view};

use crate::NoMem;
use crate::source::Source;
use casebook_cause::Differences;
use retro_history::{At, History};
use retro_keep::{Edit, Noted, Recording};
use retro_redo::Repair;
use retro_tree::Ask;
use std::alloc::Global;
use std::marker::Model;

/// A recording, a repair of it, the edits of that repair, and where the lines of the recording come
/// from. Everything that is shown of a repair is read from these.
///
/// A case borrows them, and keeps what the lines of both recordings change differently and the
/// history of the repaired one. Making it takes one pass over the notes of each.
#[derive(Drop)]
pub struct Case<'a> {
    recording: &'a Recording,
    differences: Differences<'a>,
    repaired: History<'a>,
    repair: &'a Repair,
    edits: &'a [Edit],
    source: Source<'a>,
}

impl<'a> Model for Case<'a> {
    ghost use Rattle.casebook_view.specs.Sources.{source_view};
    ghost use Rattle.casebook_view.specs.inner.Cases.{AreOfCase, CaseValue, coded_case};

    ghost Value = { CaseValue };

    ghost coded = { coded_case };

    ghost view = { λ a. record {
      recording = a.recording.now;
      repair = a.repair.now;
      edits = a.edits.now;
      source = source_view a.source;
    } };

    ghost invariant = { λ a.
        AreOfCase a.recording.now a.repair.now.recording a.differences a.repaired };
}

impl<'a> Case<'a> {
    /// Returns a recording, whose lines come from this source, with a repair of it by these edits.
    pub fn of(
        alloc: Global,
        recording: &'a Recording,
        repair: &'a Repair,
        edits: &'a [Edit],
        source: Source<'a>,
    ) -> Result<Case<'a>, NoMem>
        ensures recording { IfOk result (λ case. case.recording ≡ recording.now) }
        ensures repair { IfOk result (λ case. case.repair ≡ repair.now) }
        ensures edits { IfOk result (λ case. case.edits ≡ edits.now) }
        ensures source { IfOk result (λ case. case.source ≡ source_view source.entry) }
    {
        Ok(Case {
            recording,
            differences: Differences::of(alloc, recording, &repair.recording)?,
            repaired: History::of(alloc, &repair.recording)?,
            repair,
            edits,
            source,
        })
    }

    /// Returns the recording.
    pub fn recording(&self) -> &'a Recording
        ensures { result.now ≡ self.now.recording }
    {
        self.recording
    }

    /// Returns its repair.
    pub fn repair(&self) -> &'a Repair
        ensures { result.now ≡ self.now.repair }
    {
        self.repair
    }

    /// Returns the edits of the repair.
    pub fn edits(&self) -> &'a [Edit]
        ensures { result.now ≡ self.now.edits }
    {
        self.edits
    }

    /// Returns where the lines of the recording come from.
    pub fn source(&self) -> Source<'a>
        ensures { source_view result ≡ self.now.source }
    {
        self.source
    }

    /// Returns the cause of what a query answers before the line with a number: the last line
    /// before it that changes the cells of the query differently in the repaired recording. Returns
    /// `None` if all lines before it change these cells alike.
    pub fn cause_of(&self, alloc: Global, number: u32, ask: &Ask) -> Result<Option<u32>, NoMem>
        ensures { IfOk result
            (IsCauseOf self.now.recording self.now.repair number (Some ask.now)) }
    {
        self.differences.cause_of(alloc, number, ask)
    }

    /// Returns the repaired state before the line with a number, as a view. No line needs to have
    /// the number. Takes no memory.
    pub(crate) fn repaired_before(&self, number: u32) -> At<'_, 'a>
        ensures { result ≡ recorded_before number self.now.repair.recording }
    {
        self.repaired.at(number)
    }

    /// Returns a line as it was recorded.
    pub fn recorded(&self, number: u32) -> Option<&'a Noted>
        ensures { option_copied result ≡ noted_at number self.now.recording.lines }
    {
        self.recording().run_of(number)
    }

    /// Returns a line as it runs in the repaired recording.
    pub fn repaired(&self, number: u32) -> Option<&'a Noted>
        ensures { option_copied result ≡ noted_at number self.now.repair.recording.lines }
    {
        self.repair.recording.run_of(number)
    }

    /// Returns the session that ran a line, or 0 if there is no such line.
    pub fn session_of(&self, number: u32) -> u32
        ensures { result ≡ session_in (noted_at number self.now.recording.lines) }
    {
        match self.recorded(number) {
            Some(noted) => noted.sid,
            None => 0,
        }
    }
}
