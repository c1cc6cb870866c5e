//! Searches for causes.
ghost use Rattle.std.specs.Prelude.{◌≡◌, ◌↔◌, IfOk, IsTrue};
ghost use Rattle.casebook_cause.specs.Cause.{IsAlike};
ghost use Rattle.casebook_cause.specs.inner.Latest.{IsLatest, later};
ghost use Rattle.casebook_cause.specs.inner.Places.{has_line, has_line_in};

use crate::alike::{changes_alike, notes_of};
use crate::differing_lines::DifferingLines;
use crate::place::SearchPlace;
use retro_keep::Recording;
use retro_tree::{Ask, NoMem};

/// A search for the last line before another one that changes the cells of a query differently in
/// one recording than in another.
#[derive(Drop)]
pub(crate) struct Search<'a> {
    /// One recording.
    pub(crate) recorded: &'a Recording,
    /// The other recording.
    pub(crate) repaired: &'a Recording,
    /// The lines that make other changes in one than in the other.
    pub(crate) lines: &'a DifferingLines,
    /// The query.
    pub(crate) ask: &'a Ask,
    /// The number of the line before which the query is made.
    pub(crate) number: u32,
}

impl Search<'_> {
    /// Returns the last line at one of some places that isn't alike.
    pub(crate) fn last_of(&self, places: &[SearchPlace]) -> Result<Option<u32>, NoMem>
        ensures { IfOk result (IsLatest
            (IsAlike self.now.ask.now self.now.recorded.now self.now.repaired.now)
            self.now.number (has_line_in places.now self.now.lines.now.lines.keys)) }
    {
        let mut last = None;
        for place in places {
            last = later(last, self.last_at(place)?);
        }
        Ok(last)
    }

    /// Returns the last line at a place that isn't alike.
    fn last_at(&self, place: &SearchPlace) -> Result<Option<u32>, NoMem>
        ensures { IfOk result (IsLatest
            (IsAlike self.now.ask.now self.now.recorded.now self.now.repaired.now)
            self.now.number (λ k. has_line k place.now self.now.lines.now.lines.keys)) }
    {
        let mut below = self.number;
        while let Some(line) = self.lines.last_below(place, below)? {
            if !self.is_alike(line) {
                return Ok(Some(line));
            }
            below = line;
        }
        Ok(None)
    }

    /// Returns whether a line changes the cells of the query alike in both recordings.
    fn is_alike(&self, line: u32) -> bool
        ensures { IsTrue result
            ↔ IsAlike self.now.ask.now self.now.recorded.now self.now.repaired.now line }
    {
        let one = notes_of(self.recorded.run_of(line));
        let two = notes_of(self.repaired.run_of(line));
        changes_alike(self.ask, one, two)
    }
}

/// Returns the later of two lines, if there is one.
fn later(one: Option<u32>, two: Option<u32>) -> Option<u32>
    ensures { result ≡ later one two }
{
    match (one, two) {
        (Some(line), Some(other)) if line < other => two,
        (Some(_), _) => one,
        (None, _) => two,
    }
}
