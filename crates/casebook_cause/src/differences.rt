//! What lines change differently in one recording than in another.
ghost use Rattle.std.specs.Prelude.{◌≡◌, ◌≢◌, ◌<◌, ℕ, List, None, IfOk, IfSome, IsSome};
ghost use Rattle.retro_tree.specs.Ask.{answer};
ghost use Rattle.retro_tree.specs.Notes.{after};
ghost use Rattle.retro_tree.specs.declared.note.Note.{Note as NoteValue};
ghost use Rattle.retro_keep.specs.Recorded.{recorded_before};
ghost use Rattle.casebook_cause.specs.Cause.{IsAlike, IsCause};

use crate::differing_lines::DifferingLines;
use crate::place::places_for;
use crate::search::Search;
use retro_keep::Recording;
use retro_tree::{Ask, NoMem};
use std::alloc::Global;
use std::marker::Model;

/// Two recordings, and what their lines change differently in one than in the other.
///
/// Making it takes one pass over the notes of each recording. It keeps of each line that makes
/// other changes in one recording than in the other what the line changes.
#[derive(Drop)]
pub struct Differences<'a> {
    recorded: &'a Recording,
    repaired: &'a Recording,
    lines: DifferingLines,
}

impl<'a> Model for Differences<'a> {
    ghost use Rattle.casebook_cause.specs.Cause.{TwoRecordings};
    ghost use Rattle.casebook_cause.specs.inner.Places.{AreDifferences, coded_two};

    ghost Value = { TwoRecordings };

    ghost coded = { coded_two };

    ghost view = { λ a. record { recorded = a.recorded.now; repaired = a.repaired.now } };

    ghost invariant = { λ a. AreDifferences a.recorded.now a.repaired.now a.lines.lines.keys };
}

impl<'a> Differences<'a> {
    /// Compares what the lines of two recordings change.
    pub fn of(
        alloc: Global,
        recorded: &'a Recording,
        repaired: &'a Recording,
    ) -> Result<Differences<'a>, NoMem>
        ensures recorded { IfOk result (λ found. found.recorded ≡ recorded.now) }
        ensures repaired { IfOk result (λ found. found.repaired ≡ repaired.now) }
    {
        let mut lines = DifferingLines::new(alloc);
        lines.add_lines(alloc, recorded.lines(), repaired)?;
        lines.add_lines(alloc, repaired.lines(), recorded)?;
        Ok(Differences {
            recorded,
            repaired,
            lines,
        })
    }

    /// Returns the cause of what a query answers before the line with a number: the last line
    /// before it that changes the cells of the query differently in one recording than in the
    /// other. Returns `None` if all lines before it change these cells alike. A line that one of
    /// the recordings doesn't have changes nothing there.
    ///
    /// If the recordings begin with the same state, and the query has another answer before the
    /// line in one than in the other, there is a cause.
    ///
    /// Looks back from the line, at lines that write a cell of the query and make other changes.
    pub fn cause_of(&self, alloc: Global, number: u32, ask: &Ask) -> Result<Option<u32>, NoMem>
        ensures none { IfOk result (λ found. found ≡ None → (m : ℕ) → m < number
            → IsAlike ask.now self.now.recorded self.now.repaired m) }
        ensures some { IfOk result (λ found.
            IfSome found (IsCause ask.now number self.now.recorded self.now.repaired)) }
        ensures exists { self.now.recorded.first ≡ self.now.repaired.first
            → (notes : List NoteValue)
            → answer ask.now (after notes (recorded_before number self.now.recorded))
            ≢ answer ask.now (after notes (recorded_before number self.now.repaired))
            → IfOk result (λ found. IsSome found) }
    {
        let places = places_for(alloc, ask)?;
        let search = Search {
            recorded: self.recorded,
            repaired: self.repaired,
            lines: &self.lines,
            ask,
            number,
        };
        search.last_of(places.as_slice())
    }
}
