//! Repairs line by line.
ghost use Rattle.std.specs.Prelude.{◌≡◌, ◌≤◌, length, [], IfErr, IfOk};
ghost use Rattle.std.specs.Prelude.{MatchBool, MatchOption, None, OnErr, OnOk, Some};
ghost use Rattle.std.specs.Prelude.{false, ℕ};
ghost use Rattle.std.specs.Option.{option_copied};
ghost use Rattle.retro_tree.specs.Exact.{IsExact};
ghost use Rattle.retro_tree.specs.Notes.{Holds};
ghost use Rattle.retro_keep.specs.Edit.{edit_of};
ghost use Rattle.retro_keep.specs.Recording.{IsRecordingOf, IsWellFormed, number_in, script_in};
ghost use Rattle.retro_keep.specs.declared.noted.Noted.{Noted as NotedValue};
ghost use Rattle.retro_redo.specs.Editing.{AreAccepted, Refuses};
ghost use Rattle.retro_redo.specs.Ground.{shown_at};
ghost use Rattle.retro_redo.specs.Meetings.{StopsNow, lines_until};
ghost use Rattle.retro_redo.specs.Moments.{IsMetBy, IsUnmetBy};
ghost use Rattle.retro_redo.specs.NextLine.{IsNextLine};
ghost use Rattle.retro_redo.specs.Picks.{PicksBy};
ghost use Rattle.retro_redo.specs.Progress.{edit_in, next_line, next_number};
ghost use Rattle.retro_redo.specs.Progress.{recorded_now, repaired_now};
ghost use Rattle.retro_redo.specs.Repair.{IsRepair};
ghost use Rattle.retro_redo.specs.Settled.{IsSettled};
ghost use Rattle.retro_redo.specs.Skipping.{IsSkip};
ghost use Rattle.retro_redo.specs.SoFar.{AreStatesOfRuns};
ghost use Rattle.retro_redo.specs.declared.repair_fault.RepairFault.TheVariants as faults;

mod settling;

use crate::ground::Ground;
use crate::line::Line;
use crate::repair::Repair;
use crate::repair_fault::RepairFault;
use crate::skipping::{push_kept, unmet_lines};
use crate::step::Step;
use crate::steps::Steps;
use crate::stops::{add_edited, is_met_by};
use crate::tally::Tally;
use crate::verdict::SettledLine;
use retro_difference::Difference;
use retro_history::{At, History};
use retro_keep::{Edit, Edits, Noted, Recording};
use retro_tree::{NoMem, Overlay};
use std::alloc::Global;
use std::collections::BTreeSet;
use std::marker::Model;

/// A repair of an edited recording, line by line: each line is cancelled, kept or run again.
///
/// Its contracts compare two states before the next line. One is the recorded state. The other is
/// the repaired state, which the settled lines make of the first state by their steps. The overlay
/// has entries for exactly the cells in which these states differ.
///
/// [`Repairer::next_line`] returns the next line to settle, and [`Repairer::settle`] takes it. Some
/// calls take the number of the next line, as [`Repairer::next`] returns it.
#[derive(Drop)]
pub struct Repairer<'h, 'a, 'e> {
    recording: &'a Recording,
    history: &'h History<'a>,
    edits: Edits<'e>,
    choices: Vec<Step>,
    lines: Vec<SettledLine>,
    difference: Difference,
}

impl<'h, 'a, 'e> Model for Repairer<'h, 'a, 'e> {
    ghost use Rattle.std.specs.Prelude.{◌≡◌, drop, length};
    ghost use Rattle.retro_redo.specs.Progress.{ProgressValue};
    ghost use Rattle.retro_difference.specs.Difference.{IsAmong};
    ghost use Rattle.retro_redo.specs.inner.Keeping.{Keeps};
    ghost use Rattle.retro_redo.specs.inner.ProgressCode.{coded_progress};

    ghost Value = { ProgressValue };

    ghost coded = { coded_progress };

    ghost view = { λ a. record {
      recording = a.recording.now;
      edits = a.edits;
      choices = a.choices.items;
    } };

    ghost invariant = { λ a. Keeps (record {
      recording = a.recording.now;
      edits = a.edits;
      choices = a.choices.items;
    }) a.difference.overlay a.lines.items
        × IsAmong (drop (length a.choices.items) a.recording.now.lines) a.difference
        × (a.history.now ≡ a.recording.now) };
}

impl<'h, 'a, 'e> Repairer<'h, 'a, 'e> {
    /// Starts the repair of an edited recording.
    ///
    /// # Errors
    ///
    /// `TwoEdits` with the least number that two different edits name. Otherwise
    /// `BeforeCheckpoint` with the least edited number, from 1 on, that is below the number at
    /// which the recording begins. Otherwise `NoSuchLine` with the least edited number that no line
    /// has. `OutOfMemory` only if there is no such number.
    pub fn new(
        alloc: Global,
        recording: &'a Recording,
        history: &'h History<'a>,
        edits: &'e [Edit],
    ) -> Result<Repairer<'h, 'a, 'e>, RepairFault>
        requires { history.now ≡ recording.now }
        ensures recording { IfOk result (λ r. r.recording ≡ recording.now) }
        ensures edits { IfOk result (λ r. (n : ℕ) → edit_in r n ≡ edit_of edits.now n) }
        ensures choices { IfOk result (λ r. r.choices ≡ []) }
        ensures known { OnOk result (AreAccepted edits.now recording.now) }
        ensures refused { IfErr result (λ fault. Refuses edits.now recording.now fault) }
    {
        recording.test_edits(edits)?;
        Ok(Repairer {
            recording,
            history,
            edits: Edits::of(alloc, edits)?,
            choices: Vec::new(alloc),
            lines: Vec::new(alloc),
            difference: Difference::none(alloc),
        })
    }

    /// Returns the next line to settle as it was recorded, with its number, or `None` if all lines
    /// are settled.
    fn noted_line(&self) -> Option<&'a (u32, Noted)>
        ensures line { option_copied result ≡ next_line self.now }
        ensures well_formed { IsWellFormed self.now.recording }
    {
        self.recording.lines().get(self.choices.len())
    }

    /// Returns the next line to settle, or `None` if all lines are settled.
    pub fn next_line(&self) -> Option<Line<'a, 'e>>
        ensures { MatchOption result (next_line self.now ≡ None) (IsNextLine self.now) }
    {
        let Some(line) = self.noted_line() else {
            return None;
        };
        let edit = self.edits.get(line.0);
        let is_met = is_met_by(edit, self.difference.is_used_at(line.0));
        Some(Line {
            number: line.0,
            noted: &line.1,
            edit,
            is_met,
        })
    }

    /// Returns the number of the next line to settle, or `None` if all lines are settled.
    pub fn next(&self) -> Option<u32>
        ensures { result ≡ next_number self.now }
    {
        match self.noted_line() {
            None => None,
            Some(line) => Some(line.0),
        }
    }

    /// Returns the next line, whose number is `number`. Only the contract uses `number`.
    fn line_at(&self, number: u32) -> Line<'a, 'e>
        requires { next_number self.now ≡ Some number }
        ensures { IsNextLine self.now result }
    {
        self.next_line().unwrap()
    }

    /// Returns the overlay of exactly the cells in which the repaired state differs from the
    /// recorded one before the next line, or at the end if all lines are settled.
    ///
    /// If the recording is what running its lines gives, the recorded state is that of running the
    /// settled lines, and the repaired one that of running them as they are edited.
    pub fn overlay(&self) -> &Overlay
        ensures exact { IsExact result.now (recorded_now self.now) (repaired_now self.now) }
        ensures runs { IsRecordingOf (script_in self.now.recording) self.now.recording
            → AreStatesOfRuns self.now }
    {
        // For the prover: the contract of `noted_line` says that the recording is well formed.
        let _ = self.noted_line();
        self.difference.overlay()
    }

    /// Returns the recorded state before the next line, whose number is `number`. It is a function
    /// of its own for the prover: its contract names the state in the words of the other contracts.
    fn recorded(&self, number: u32) -> At<'h, 'a>
        requires { next_number self.now ≡ Some number }
        ensures { result ≡ recorded_now self.now }
    {
        // For the prover: the contract of `noted_line` says that the recording is well formed.
        let _ = self.noted_line();
        self.history.at(number)
    }

    /// Returns the edits.
    pub fn edits(&self) -> &Edits<'e>
        ensures { result.now ≡ self.now.edits }
    {
        &self.edits
    }

    /// Returns whether the next line is met: whether its text is replaced, or it isn't edited and
    /// reads or writes a cell in which the states differ.
    ///
    /// If the recording is what running its lines gives, the notes of a line that is neither edited
    /// nor met hold in the repaired state.
    pub fn is_met(&self, number: u32) -> bool
        requires { next_number self.now ≡ Some number }
        ensures met { (l : ℕ × NotedValue) → next_line self.now ≡ Some l → MatchBool result
            (IsMetBy (edit_in self.now l.0) l.1.notes (recorded_now self.now)
            (repaired_now self.now))
            (IsUnmetBy (edit_in self.now l.0) l.1.notes (recorded_now self.now)
            (repaired_now self.now)) }
        ensures holds { IsRecordingOf (script_in self.now.recording) self.now.recording
            → (l : ℕ × NotedValue) → next_line self.now ≡ Some l
            → edit_in self.now l.0 ≡ None → result ≡ false
            → Holds l.1.notes (repaired_now self.now) }
    {
        self.line_at(number).is_met
    }

    /// Keeps the next lines that are neither edited nor met, and returns the line after them, or
    /// `None` if all lines are settled. The kept lines aren't read, since the next line that is
    /// edited or met is found by its number.
    pub fn skip_unmet(&mut self) -> Result<Option<Line<'a, 'e>>, NoMem>
        ensures next { IfOk result (λ line.
            MatchOption line (next_line self.new ≡ None) (IsNextLine self.new)) }
        ensures ok { OnOk result (IsSkip self.old self.new) }
        ensures err { OnErr result (self.new ≡ self.old) }
    {
        self.keep_unmet()?;
        Ok(self.next_line())
    }

    /// Keeps the next lines that are neither edited nor met.
    fn keep_unmet(&mut self) -> Result<(), NoMem>
        ensures ok { OnOk result (IsSkip self.old self.new) }
        ensures err { OnErr result (self.new ≡ self.old) }
    {
        // For the prover: the contract of `noted_line` says that the recording is well formed.
        let _ = self.noted_line();
        let settled = self.choices.len();
        let unmet = unmet_lines(self.recording, settled, &self.edits, &self.difference);
        push_kept(&mut self.choices, &mut self.lines, unmet)?;
        Ok(())
    }

    /// Returns how many lines are settled.
    pub fn settled_count(&self) -> usize
        ensures { result ≡ length self.now.choices }
    {
        self.choices.len()
    }

    /// Returns the numbers of the lines to settle, up to the index `end`, that are edited or that
    /// read or write a cell in which the states differ before the next line. Takes a look-up for
    /// each edited line, and a few for each other line and each such cell that it uses. Reads no
    /// other line.
    pub fn stops_until(&self, alloc: Global, end: usize) -> Result<BTreeSet<u32>, NoMem>
        requires { end ≤ length self.now.recording.lines }
        ensures { IfOk result (λ numbers. PicksBy number_in (StopsNow self.now)
            (lines_until end self.now) numbers.keys) }
    {
        let lines = self.recording.lines();
        let settled = self.choices.len();
        if end <= settled {
            return Ok(BTreeSet::new(alloc));
        }
        let next = &lines[settled];
        let last = &lines[end - 1];
        let mut numbers = self.difference.numbers_until(alloc, self.history, last.0)?;
        add_edited(&self.edits, next.0, last.0, &mut numbers)?;
        // For the prover: the contract of `iter` says that the numbers are in order.
        let _ = numbers.iter();
        Ok(numbers)
    }

    /// Lends the recording, the edits, the history and the overlay, for guesses of later lines. The
    /// ground's view before the next line is the repaired state.
    pub fn ground(&self) -> Ground<'_, 'a, 'e>
        ensures recording { result.recording ≡ self.now.recording }
        ensures edits { result.edits ≡ self.now.edits }
        ensures exact { IsExact result.overlay (recorded_now self.now) (repaired_now self.now) }
        ensures shows { (number : ℕ) → next_number self.now ≡ Some number
            → shown_at number result ≡ repaired_now self.now }
    {
        // For the prover: the contract of `noted_line` says that the recording is well formed.
        let _ = self.noted_line();
        Ground::new(
            self.recording,
            &self.edits,
            self.history,
            self.difference.overlay(),
        )
    }

    /// Returns the repair. All lines must be settled. [`Steps::finish`] says what it is.
    pub fn finish(self, alloc: Global, tally: Tally) -> Result<Repair, RepairFault>
        requires { next_line self ≡ None }
        ensures tally { IfOk result (λ repair. repair.tally ≡ tally) }
        ensures repair { IfOk result (λ repair.
            IsRecordingOf (script_in self.entry.recording) self.entry.recording
            → IsRepair (edit_in self.entry) self.entry.recording repair) }
        ensures settled { IfOk result (λ repair. IsSettled (edit_in self.entry)
            self.entry.recording self.entry.choices repair) }
        ensures fault { IfErr result (λ fault. fault ≡ faults.OutOfMemory) }
    {
        Ok(self.into_steps().finish(alloc, tally)?)
    }

    /// Returns the steps of the settled lines, without the history, which can then be dropped
    /// before the repair is made.
    pub fn into_steps(self) -> Steps<'a, 'e>
        ensures { result ≡ self.entry }
    {
        let Repairer {
            recording,
            history: _,
            edits,
            choices,
            lines,
            difference,
        } = self;
        Steps {
            recording,
            edits,
            choices,
            lines,
            overlay: difference.into_overlay(),
        }
    }
}
