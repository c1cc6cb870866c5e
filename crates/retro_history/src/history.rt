//! Histories of recordings.
ghost use Rattle.std.specs.Prelude.{◌≡◌, IfOk};
ghost use Rattle.retro_tree.specs.Ask.{answer, names_in};
ghost use Rattle.retro_tree.specs.Cell.{value};
ghost use Rattle.retro_tree.specs.declared.ask.Ask.TheVariants as Ask;
ghost use Rattle.retro_tree.specs.declared.answer.Answer.TheVariants as Answer;
ghost use Rattle.retro_tree.specs.ValueRef.{ref_value};
ghost use Rattle.std.specs.FinMap as map;
ghost use Rattle.retro_history.specs.inner.History.{parts_before, version_ref_parts};
ghost use Rattle.retro_history.specs.Index.{IsNextMeeting, listed_at, next_use, read_at};
ghost use Rattle.retro_history.specs.Index.{written_at};
ghost use Rattle.retro_keep.specs.Recording.{IsWellFormed};
ghost use Rattle.retro_keep.specs.Recorded.{recorded_before};
ghost use Rattle.retro_history.specs.Versions.{checkpoints, greatest_below, rolled_back};

use crate::at::At;
use crate::index::Index;
use crate::rolled::Rolled;
use crate::version_ref::VersionRef;
use retro_keep::Recording;
use retro_tree::{Cell, Cells, Listing, NoMem, Overlay, Path, Text, User, Value, ValueRef};
use std::alloc::Global;
use std::collections::BTreeSet;
use std::marker::Model;

/// What was in each cell of the machine before each line of a recording.
///
/// A history borrows its recording. Making it takes one pass over the notes, and copies no state.
#[derive(Drop)]
pub struct History<'a> {
    recording: &'a Recording,
    index: Index<'a>,
}

impl<'a> Model for History<'a> {
    ghost use Rattle.retro_keep.specs.Recording.{RecordingValue};
    ghost use Rattle.retro_keep.specs.inner.RecordingCode.{coded_recording};
    ghost use Rattle.retro_history.specs.inner.IsHistory.{IsHistory};

    ghost Value = { RecordingValue };

    ghost coded = { coded_recording };

    ghost view = { λ a. a.recording.now };

    ghost invariant = { λ a. IsHistory a.recording.now a.index };
}

impl<'a> History<'a> {
    /// Makes the history of a recording.
    pub fn of(alloc: Global, recording: &'a Recording) -> Result<History<'a>, NoMem>
        ensures { IfOk result (λ history. history ≡ recording.now) }
    {
        let first = recording.first();
        let mut index = Index::new(alloc);
        for line in recording.lines() {
            index.add_line(alloc, first, line.0, &line.1.notes)?;
        }
        Ok(History { recording, index })
    }

    /// Returns the recording.
    pub fn recording(&self) -> &'a Recording
        ensures { result.now ≡ self.now }
    {
        self.recording
    }

    /// Returns the value of a cell before the line with the given number: its value after all lines
    /// with lesser numbers. No line needs to have the number.
    pub fn value_at(&self, alloc: Global, cell: &Cell, number: u32) -> Result<Value, NoMem>
        ensures { IfOk result (λ v. v ≡ value cell.now (recorded_before number self.now)) }
    {
        self.get(cell, number).to_value(alloc)
    }

    /// Borrows the value of a cell before the line with the given number. Takes no memory. Finds it
    /// by a binary search in the versions of the cell.
    pub fn get(&self, cell: &Cell, number: u32) -> ValueRef<'_>
        ensures { ref_value result ≡ value cell.now (recorded_before number self.now) }
    {
        self.version_before(cell, number).value
    }

    /// Returns the numbers of the checkpoints of a cell, in rising order. The first one is 0.
    pub fn checkpoints(&self, alloc: Global, cell: &Cell) -> Result<Vec<u32>, NoMem>
        ensures { IfOk result (λ numbers. numbers.items ≡ checkpoints cell.now self.now) }
    {
        match self.index.cells.get(cell) {
            Some(history) => history.track.checkpoints(alloc),
            None => Vec::from_slice(alloc, &[0]),
        }
    }

    /// Rolls a cell back to before the line with the given number. Returns the last checkpoint
    /// below that number, and the checkpoint's value with the growths after it that are below the
    /// number.
    pub fn rollback(&self, alloc: Global, cell: &Cell, number: u32) -> Result<Rolled, NoMem>
        ensures rule { IfOk result (λ r. r ≡ rolled_back cell.now number self.now) }
        ensures from { IfOk result (λ r.
            r.from ≡ greatest_below number (checkpoints cell.now self.now)) }
        ensures value { IfOk result (λ r.
            r.value ≡ value cell.now (recorded_before number self.now)) }
    {
        let version = self.version_before(cell, number);
        Ok(Rolled {
            from: version.checkpoint,
            value: version.value.to_value(alloc)?,
        })
    }

    /// Returns the password entry of a login name before the line with the given number, or `None`
    /// if there is none. This is the recorded answer to [`Ask::User`](retro_tree::Ask::User).
    #[tactic(auto, unfolding(retro_tree::specs::Ask::answer))]
    pub fn entry_at(&self, alloc: Global, name: &Text, number: u32) -> Result<Option<User>, NoMem>
        ensures { IfOk result (λ user.
            Answer.User user ≡ answer (Ask.User name.now) (recorded_before number self.now)) }
    {
        Ok(self.at(number).user(alloc, name)?)
    }

    /// Returns the names in a directory before the line with the given number, or `None` if the
    /// path isn't a directory then. This is the recorded answer to
    /// [`Ask::Names`](retro_tree::Ask::Names).
    #[tactic(auto, unfolding(retro_tree::specs::Ask::answer))]
    pub fn names_at(
        &self,
        alloc: Global,
        path: &Path,
        number: u32,
    ) -> Result<Option<Listing>, NoMem>
        ensures { IfOk result (λ names.
            Answer.Names names ≡ answer (Ask.Names path.now) (recorded_before number self.now)) }
    {
        Ok(self.at(number).listing(alloc, path)?)
    }

    /// Returns the numbers of the lines that write a cell, in rising order. A line writes a cell if
    /// its notes have a change of it, even a change to the same value.
    pub fn writers(&self, alloc: Global, cell: &Cell) -> Result<Vec<u32>, NoMem>
        ensures { IfOk result (λ numbers. numbers.items ≡ written_at cell.now self.now.lines) }
    {
        self.index.writers(alloc, cell)
    }

    /// Returns the numbers of the lines that read a cell, in rising order. A line reads a cell if
    /// the answer to one of its queries can depend on it. So a listing reads the cells of all
    /// children, existing or not.
    pub fn readers(&self, alloc: Global, cell: &Cell) -> Result<Vec<u32>, NoMem>
        ensures { IfOk result (λ numbers. numbers.items ≡ read_at cell.now self.now.lines) }
    {
        self.index.readers(alloc, cell)
    }

    /// Borrows the numbers of the lines that write a cell, in rising order. Takes no memory.
    pub fn written_by(&self, cell: &Cell) -> &[u32]
        ensures { result.now ≡ written_at cell.now self.now.lines }
    {
        self.index.written_by(cell)
    }

    /// Borrows the numbers of the lines that query the names in a directory, in rising order. Takes
    /// no memory.
    pub fn listed_by(&self, path: &Path) -> &[u32]
        ensures { result.now ≡ listed_at path.now self.now.lines }
    {
        self.index.listed_by(path)
    }

    /// Returns the least number above `after` of a line that reads or writes a cell, or `None` if
    /// there is no such line. A listing of a directory reads the cells of all its children. Takes a
    /// few look-ups.
    pub fn next_use(&self, alloc: Global, cell: &Cell, after: u32) -> Result<Option<u32>, NoMem>
        ensures { IfOk result (λ next. next ≡ next_use after cell.now self.now.lines) }
    {
        self.index.next_use(alloc, cell, after)
    }

    /// Returns the least number above `after` of a line that reads or writes one of the cells, or
    /// `None` if there is no such line. Takes a few look-ups for each cell.
    pub fn next_meeting(
        &self,
        alloc: Global,
        cells: &BTreeSet<Cell>,
        after: u32,
    ) -> Result<Option<u32>, NoMem>
        ensures { IfOk result (λ next. IsNextMeeting cells.now.keys after self.now.lines next) }
    {
        self.index.next_meeting(alloc, cells, after)
    }

    /// Returns the least number above `after` of a line that reads or writes a cell with an entry
    /// in an overlay, or `None` if there is no such line. Takes a few look-ups for each entry.
    pub fn next_meeting_in(
        &self,
        alloc: Global,
        overlay: &Overlay,
        after: u32,
    ) -> Result<Option<u32>, NoMem>
        ensures { IfOk result (λ next.
            IsNextMeeting (map.keys overlay.now) after self.now.lines next) }
    {
        self.index.next_meeting_in(alloc, overlay, after)
    }

    /// Returns the names of the children of a path before the line with the given number, whatever
    /// the path itself holds. Takes time in proportion to the children in the first state and in
    /// the histories, times the logarithm of all cells.
    pub(crate) fn children(&self, alloc: Global, path: &Path, number: u32) -> Result<Listing, NoMem>
        ensures { IfOk result (λ names.
            names ≡ names_in path.now (recorded_before number self.now).tree) }
    {
        let marks = self.index.cells.marks_below(alloc, path, number)?;
        marks.children(alloc, self.recording.first(), path)
    }

    /// Returns the recorded state before the line with the given number, as a view. Takes no
    /// memory.
    pub fn at(&self, number: u32) -> At<'_, 'a>
        ensures { result ≡ recorded_before number self.now }
    {
        At::new(self, number)
    }

    /// Returns the value of a cell before the line with the given number, and the number of the
    /// checkpoint that the value starts from.
    fn version_before(&self, cell: &Cell, number: u32) -> VersionRef<'_>
        ensures value { version_ref_parts result ≡ parts_before cell.now number self.now }
        ensures well_formed { IsWellFormed self.now }
    {
        if let Some(history) = self.index.cells.get(cell) {
            if let Some(version) = history.track.version_below(number) {
                return version;
            }
        }
        VersionRef {
            checkpoint: 0,
            value: self.recording.first().get(cell),
        }
    }
}
