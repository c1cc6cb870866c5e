//! Recordings of lines.
ghost use Rattle.std.specs.Prelude.{◌≡◌, ◌≤◌, ◌↔◌, IfErr, IfOk, IfSome, IsTrue, OnOk, is_some};
ghost use Rattle.std.specs.List.{list_all};
ghost use Rattle.std.specs.Option.{option_copied};
ghost use Rattle.retro_tree.specs.Lawful.{IsLawful};
ghost use Rattle.retro_keep.specs.Edit.{edits_tested};
ghost use Rattle.retro_keep.specs.inner.Parts.{are_parts};
ghost use Rattle.retro_keep.specs.Recording.{AllLinesAllowed, IsRecordingOf, IsWellFormed};
ghost use Rattle.retro_keep.specs.Recording.{is_line_of_kind, is_own_line, last_state, noted_at};
ghost use Rattle.retro_keep.specs.RecordingFault.{IsFaultOf};
ghost use Rattle.retro_keep.specs.Script.{ScriptValue};
ghost use Rattle.retro_keep.specs.Trim.{IsTrimmed, script_from};

use crate::edit::Edit;
use crate::edit_fault::EditRefusal;
use crate::edit_test::test_edits;
use crate::noted::Noted;
use crate::numbered::test_lines;
use crate::recording_fault::RecordingFault;
use crate::requirements::{are_parts, is_none_before, make_changes};
use crate::split::{apply_lines, count_before};
use crate::trim_fault::TrimFault;
use retro_tree::{NoMem, State};
use std::alloc::Global;
use std::marker::Model;

/// A first state, and the lines that were run from it, each with its notes and its output. The
/// recording begins at a number: sessions may have run lines before that number, and the first
/// state is the one that those lines left.
///
/// The type guarantees that
///
/// - the first state is lawful,
/// - the recording begins at line 1 or later, and no line has a lower number,
/// - line numbers rise,
/// - each line's session exists and is the only one that the line's notes name,
/// - each noted answer is of its query's kind,
/// - each noted change is lawful in the state that it changes.
///
/// The notes need not be those of the lines, because a recording can be read from a document. The
/// recording that [`keep`](crate::keep) returns has the notes of its lines.
#[derive(Drop)]
pub struct Recording {
    first: State,
    from: u32,
    lines: Vec<(u32, Noted)>,
    last: State,
}

impl Model for Recording {
    ghost use Rattle.retro_keep.specs.Recording.{RecordingValue};
    ghost use Rattle.retro_keep.specs.inner.RecordingCode.{IsKept, coded_recording};

    ghost Value = { RecordingValue };

    ghost coded = { coded_recording };

    ghost view = { λ r. record { first = r.first; from = r.from; lines = r.lines.items } };

    ghost invariant = { λ r.
        IsKept (record { first = r.first; from = r.from; lines = r.lines.items }) r.last };
}

impl Recording {
    /// Returns the recording of these parts, or `None` if they don't satisfy what [`Recording`]
    /// guarantees. The recording begins at the number `from`.
    pub fn new(
        alloc: Global,
        first: State,
        from: u32,
        lines: Vec<(u32, Noted)>,
    ) -> Result<Option<Recording>, NoMem>
        ensures value { IfOk result (λ found. IfSome found (λ r.
            r ≡ record { first = first; from = from; lines = lines.items })) }
        ensures exact { IfOk result (λ found. IsTrue (is_some found)
            ↔ IsWellFormed (record { first = first; from = from; lines = lines.items })) }
    {
        let mut first = first;
        if !first.validate(alloc)? || !are_parts(&first, from, &lines) {
            return Ok(None);
        }
        Recording::of_fitting(alloc, first, from, lines)
    }

    /// Returns the recording of a lawful state and of lines, or the first refusal in the order
    /// line numbers, sessions, changes. The recording begins at the number `from`, which must be at
    /// least 1. The lines' notes must name their own session alone, and their answers must be of
    /// their queries' kinds.
    pub fn of_lawful(
        alloc: Global,
        first: State,
        from: u32,
        lines: Vec<(u32, Noted)>,
    ) -> Result<Recording, RecordingFault>
        requires lawful { IsLawful first }
        requires begins { 1 ≤ from }
        requires own { IsTrue (list_all is_own_line lines.items) }
        requires of_kind { IsTrue (list_all is_line_of_kind lines.items) }
        ensures value { IfOk result (λ r.
            r ≡ record { first = first; from = from; lines = lines.items }) }
        ensures well_formed { OnOk result
            (IsWellFormed (record { first = first; from = from; lines = lines.items })) }
        ensures fault { IfErr result (IsFaultOf first from lines.items) }
    {
        if !is_none_before(from, &lines) {
            return Err(RecordingFault::NumbersNotRising);
        }
        test_lines(&first, lines.as_slice())?;
        match Recording::of_fitting(alloc, first, from, lines)? {
            Some(recording) => Ok(recording),
            None => Err(RecordingFault::LawlessChange),
        }
    }

    /// Returns the recording of a lawful state and of lines that fit it, or `None` if a change
    /// isn't lawful in the state that it changes.
    fn of_fitting(
        alloc: Global,
        first: State,
        from: u32,
        lines: Vec<(u32, Noted)>,
    ) -> Result<Option<Recording>, NoMem>
        requires lawful { IsLawful first }
        requires parts { IsTrue (are_parts first from lines.items) }
        ensures value { IfOk result (λ found. IfSome found (λ r.
            r ≡ record { first = first; from = from; lines = lines.items })) }
        ensures exact { IfOk result (λ found. IsTrue (is_some found)
            ↔ AllLinesAllowed lines.items first) }
    {
        let mut last = first.copy()?;
        if !make_changes(alloc, &lines, &mut last)? {
            return Ok(None);
        }
        Ok(Some(Recording {
            first,
            from,
            lines,
            last,
        }))
    }

    /// Makes a recording of parts that satisfy what [`Recording`] guarantees. The recording begins
    /// at the number `from`. `last` is the state after the changes of all lines. Nothing is tested,
    /// and no memory is allocated.
    pub fn of_well_formed(
        first: State,
        from: u32,
        lines: Vec<(u32, Noted)>,
        last: State,
    ) -> Recording
        requires well_formed { IsWellFormed
            (record { first = first; from = from; lines = lines.items }) }
        requires last { last ≡ last_state lines.items first }
        ensures { result ≡ record { first = first; from = from; lines = lines.items } }
    {
        Recording {
            first,
            from,
            lines,
            last,
        }
    }

    /// Returns the recording that begins at the line with this number: the lines from there on,
    /// over the state that the lines before them left. The lines are moved and not copied. The cost
    /// is that of the changes of the lines that are given up, and of moving the others.
    ///
    /// Returns [`TrimFault::BeforeCheckpoint`] if the recording begins after this number. That is
    /// tested before any memory is allocated.
    pub fn trim(self, alloc: Global, number: u32) -> Result<Recording, TrimFault>
        ensures trimmed { IsTrimmed number self result }
        ensures recording { IfOk result (λ t. (script : ScriptValue)
            → IsRecordingOf script self → IsRecordingOf (script_from number script) t) }
    {
        if number < self.from {
            return Err(TrimFault::BeforeCheckpoint);
        }
        let Recording {
            first: mut state,
            lines: mut before,
            last,
            ..
        } = self;
        let lines = before.split_off(count_before(number, &before))?;
        apply_lines(alloc, &before, &mut state)?;
        Ok(Recording {
            first: state,
            from: number,
            lines,
            last,
        })
    }

    /// Returns the state at the recording's beginning: the one before its first line.
    pub fn first(&self) -> &State
        ensures value { result.now ≡ self.now.first }
        ensures well_formed { IsWellFormed self.now }
    {
        &self.first
    }

    /// Returns the number at which the recording begins, at least 1. No line has a lower number.
    pub fn from(&self) -> u32
        ensures value { result ≡ self.now.from }
        ensures well_formed { IsWellFormed self.now }
    {
        self.from
    }

    /// Returns the lines with their numbers, in order.
    pub fn lines(&self) -> &[(u32, Noted)]
        ensures value { result.now ≡ self.now.lines }
        ensures well_formed { IsWellFormed self.now }
    {
        self.lines.as_slice()
    }

    /// Returns the line with this number, its notes and its output, or `None` if no line has the
    /// number. The line is found by binary search.
    pub fn run_of(&self, number: u32) -> Option<&Noted>
        ensures value { option_copied result ≡ noted_at number self.now.lines }
        ensures well_formed { IsWellFormed self.now }
    {
        match self
            .lines
            .as_slice()
            .binary_search_by_key(&number, |line| line.0)
        {
            Ok(index) => Some(&self.lines[index].1),
            Err(_) => None,
        }
    }

    /// Returns `Ok` if edits can be made of the lines, or the first refusal: of the least number
    /// that two different edits name, then of the least one, from 1 on, that is below the number at
    /// which the recording begins, and then of the least one that no line has. No memory is
    /// allocated.
    #[tactic(auto, using(crate::proofs::Searching::tested_at))]
    pub fn test_edits(&self, edits: &[Edit]) -> Result<(), EditRefusal>
        ensures { result ≡ edits_tested self.now.from
            (λ n. is_some (noted_at n self.now.lines)) edits.now }
    {
        test_edits(self.from, self.lines.as_slice(), edits)
    }

    /// Returns the state after the changes of all lines.
    pub fn last(&self) -> &State
        ensures value { result.now ≡ last_state self.now.lines self.now.first }
        ensures well_formed { IsWellFormed self.now }
    {
        &self.last
    }

    /// Returns the first state, the number at which the recording begins, the lines and the last
    /// state. No memory is allocated.
    pub fn into_parts(self) -> (State, u32, Vec<(u32, Noted)>, State)
        ensures first { result.0 ≡ self.first }
        ensures from { result.1 ≡ self.from }
        ensures lines { result.2.items ≡ self.lines }
        ensures last { result.3 ≡ last_state self.lines self.first }
        ensures well_formed { IsWellFormed self }
    {
        let Recording {
            first,
            from,
            lines,
            last,
        } = self;
        (first, from, lines, last)
    }
}
