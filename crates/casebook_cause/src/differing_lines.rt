//! The lines that change something differently in one recording than in another.
ghost use Rattle.std.specs.Prelude.{◌≡◌, [], ℕ, IfOk, OnOk, true};
ghost use Rattle.retro_tree.specs.Change.{cell_of};
ghost use Rattle.retro_tree.specs.Path.{PathValue};
ghost use Rattle.casebook_cause.specs.inner.Places.{HasEntries, HaveEntries, IsLastOf};
ghost use Rattle.casebook_cause.specs.inner.Places.{changes_place, has_line, is_at_place};
ghost use Rattle.casebook_cause.specs.declared.place.SearchPlace.{SearchPlace as PlaceValue};
ghost use Rattle.casebook_cause.specs.declared.place.SearchPlace.TheVariants as PlaceOf;

use crate::alike::notes_of;
use crate::another_result::makes_same_changes;
use crate::place::SearchPlace;
use retro_keep::{Noted, Recording};
use retro_tree::{Change, NoMem, Note};
use std::alloc::Global;
use std::collections::BTreeSet;

/// For each place, the numbers of the lines that change a cell there, of the lines whose changes
/// differ between two recordings.
#[derive(Drop)]
pub(crate) struct DifferingLines {
    /// Ordered by place, and then by number.
    lines: BTreeSet<(SearchPlace, u32)>,
}

impl DifferingLines {
    /// Returns no lines. Takes no memory.
    pub(crate) fn new(alloc: Global) -> DifferingLines
        ensures { result.lines.keys ≡ [] }
    {
        DifferingLines {
            lines: BTreeSet::new(alloc),
        }
    }

    /// Adds a line, if its notes make other changes than its notes in another recording.
    fn add_line(
        &mut self,
        alloc: Global,
        number: u32,
        notes: &[Note],
        others: &[Note],
    ) -> Result<(), NoMem>
        ensures kept { (n : ℕ) (p : PlaceValue)
            → has_line n p self.old.lines.keys ≡ true → has_line n p self.new.lines.keys ≡ true }
        ensures added { OnOk result
            (HasEntries number notes.now others.now self.new.lines.keys) }
    {
        if makes_same_changes(notes, others) {
            return Ok(());
        }
        self.add_notes(alloc, number, notes)
    }

    /// Adds each line of a recording that makes other changes than the line of the same number in
    /// another recording.
    pub(crate) fn add_lines(
        &mut self,
        alloc: Global,
        lines: &[(u32, Noted)],
        other: &Recording,
    ) -> Result<(), NoMem>
        ensures kept { (n : ℕ) (p : PlaceValue)
            → has_line n p self.old.lines.keys ≡ true → has_line n p self.new.lines.keys ≡ true }
        ensures added { OnOk result
            (HaveEntries lines.now other.now.lines self.new.lines.keys) }
    {
        for line in lines {
            let others = notes_of(other.run_of(line.0));
            self.add_line(alloc, line.0, line.1.notes.as_slice(), others)?;
        }
        Ok(())
    }

    /// Adds a line at the places of what its notes change.
    fn add_notes(&mut self, alloc: Global, number: u32, notes: &[Note]) -> Result<(), NoMem>
        ensures kept { (n : ℕ) (p : PlaceValue)
            → has_line n p self.old.lines.keys ≡ true → has_line n p self.new.lines.keys ≡ true }
        ensures added { OnOk result ((p : PlaceValue) → changes_place p notes.now ≡ true
            → has_line number p self.new.lines.keys ≡ true) }
    {
        for note in notes {
            if let Note::Made(change) = note {
                self.add_change(alloc, number, change)?;
            }
        }
        Ok(())
    }

    /// Adds a line at the places of a change: its cell, and the children of the path's parent.
    fn add_change(&mut self, alloc: Global, number: u32, change: &Change) -> Result<(), NoMem>
        ensures kept { (n : ℕ) (p : PlaceValue)
            → has_line n p self.old.lines.keys ≡ true → has_line n p self.new.lines.keys ≡ true }
        ensures added { OnOk result ((p : PlaceValue) → is_at_place p (cell_of change.now) ≡ true
            → has_line number p self.new.lines.keys ≡ true) }
    {
        self.add_child(alloc, number, change)?;
        self.add(SearchPlace::Cell(change.cell().to_cell()?), number)
    }

    /// Adds a line at the children of the parent of the path that a change writes, if it writes
    /// one.
    fn add_child(&mut self, alloc: Global, number: u32, change: &Change) -> Result<(), NoMem>
        ensures kept { (n : ℕ) (p : PlaceValue)
            → has_line n p self.old.lines.keys ≡ true → has_line n p self.new.lines.keys ≡ true }
        ensures added { OnOk result ((p : PathValue)
            → is_at_place (PlaceOf.ChildrenOf p) (cell_of change.now) ≡ true
            → has_line number (PlaceOf.ChildrenOf p) self.new.lines.keys ≡ true) }
    {
        match change {
            Change::Put(path, _) | Change::Grow(path, _) => {
                self.add(SearchPlace::ChildrenOf(path.parent(alloc)?), number)
            }
            _ => Ok(()),
        }
    }

    /// Adds a line at a place.
    fn add(&mut self, place: SearchPlace, number: u32) -> Result<(), NoMem>
        ensures kept { (n : ℕ) (p : PlaceValue)
            → has_line n p self.old.lines.keys ≡ true → has_line n p self.new.lines.keys ≡ true }
        ensures added { OnOk result (has_line number place self.new.lines.keys ≡ true) }
    {
        self.lines.insert((place, number))?;
        Ok(())
    }

    /// Returns the last line at a place with a number below another, or `None` if there is none.
    pub(crate) fn last_below(&self, place: &SearchPlace, number: u32) -> Result<Option<u32>, NoMem>
        ensures { IfOk result (IsLastOf place.now number self.now.lines.keys) }
    {
        let mut lines = self
            .lines
            .range((place.copy()?, 0)..(place.copy()?, number));
        match lines.next_back() {
            Some(line) => Ok(Some(line.1)),
            None => Ok(None),
        }
    }
}
