//! The next uses of cells.
ghost use Rattle.std.specs.Prelude.{◌≡◌, ◌⊎◌, ℕ, [], IfOk, OnOk, true};
ghost use Rattle.std.specs.FinMap as map;
ghost use Rattle.retro_tree.specs.Notes.{changes};
ghost use Rattle.retro_tree.specs.declared.cell.Cell.{Cell as CellValue};
ghost use Rattle.retro_history.specs.Index.{AreNumbered};
ghost use Rattle.retro_difference.specs.NextUses.{AddsNumbers, AreNumbersUntil};
ghost use Rattle.retro_difference.specs.NextUses.{AddsUses, AreSorted, HasNext, Prunes};
ghost use Rattle.retro_difference.specs.NextUses.{first_number, has_cell, has_use, is_first_over};
ghost use Rattle.retro_difference.specs.NextUses.{starts_at};

use retro_history::History;
use retro_tree::{Cell, NoMem, Note, Notes, Overlay};
use std::alloc::Global;
use std::collections::BTreeSet;
use std::marker::Model;

/// For each cell in which the recorded and the repaired state differ, the number of the next line
/// that reads or writes it. Entries are ordered by number, so the first one has the number of the
/// next line that uses such a cell.
///
/// An entry is outdated if the states no longer differ in its cell. Outdated entries may stay in
/// the set for a while. They aren't renewed when their line is settled, and [`NextUses::prune`]
/// removes them when they come first. So after each step the first entry isn't outdated.
#[derive(Drop)]
pub(crate) struct NextUses {
    uses: BTreeSet<(u32, Cell)>,
}

impl Model for NextUses {
    ghost use Rattle.std.specs.Prelude.{List};
    ghost use Rattle.retro_difference.specs.NextUses.{Use};
    ghost use Rattle.retro_difference.specs.inner.NextUsesCode.{coded_uses};

    ghost Value = { List Use };

    ghost coded = { coded_uses };

    ghost view = { λ a. a.uses.keys };
}

impl NextUses {
    /// Returns an empty set. Takes no memory.
    pub(crate) fn new(alloc: Global) -> NextUses
        ensures { result ≡ [] }
    {
        NextUses {
            uses: BTreeSet::new(alloc),
        }
    }

    /// Returns the number of the first entry, or `None` if there are no entries.
    pub(crate) fn next(&self) -> Option<u32>
        ensures { result ≡ first_number self.now }
    {
        match self.uses.first() {
            Some(first) => Some(first.0),
            None => None,
        }
    }

    /// Returns whether the first entry has the given number.
    pub(crate) fn has_use_at(&self, number: u32) -> bool
        ensures { result ≡ starts_at number self.now }
    {
        match self.next() {
            Some(first) => first == number,
            None => false,
        }
    }

    /// Adds an entry.
    fn add(&mut self, cell: Cell, number: u32) -> Result<(), NoMem>
        ensures kept { (n : ℕ) (c : CellValue)
            → has_use n c self.old ≡ true → has_use n c self.new ≡ true }
        ensures only { (n : ℕ) (c : CellValue) → has_use n c self.new ≡ true
            → (has_use n c self.old ≡ true) ⊎ ((n ≡ number) × (c ≡ cell)) }
        ensures added { OnOk result (has_use number cell self.new ≡ true) }
        ensures sorted { AreSorted self.new }
    {
        self.uses.insert((number, cell))?;
        Ok(())
    }

    /// Adds an entry for a cell, with the number of the next line after `after` that uses the cell.
    /// Adds nothing if there is no such line.
    fn add_next(
        &mut self,
        alloc: Global,
        history: &History<'_>,
        cell: Cell,
        after: u32,
    ) -> Result<(), NoMem>
        ensures adds { AddsUses after history.now.lines self.old self.new }
        ensures next { OnOk result (HasNext after history.now.lines cell self.new) }
    {
        if let Some(number) = history.next_use(alloc, &cell, after)? {
            self.add(cell, number)?;
        }
        Ok(())
    }

    /// Adds, for each of the cells, the next line after `after` that uses it. If allocation fails,
    /// the entries of some of the cells may have been added.
    pub(crate) fn add_cells(
        &mut self,
        alloc: Global,
        history: &History<'_>,
        cells: Vec<Cell>,
        after: u32,
    ) -> Result<(), NoMem>
        ensures adds { AddsUses after history.now.lines self.old self.new }
        ensures next { OnOk result ((c : CellValue) → has_cell c cells.items ≡ true
            → HasNext after history.now.lines c self.new) }
    {
        for cell in cells {
            self.add_next(alloc, history, cell, after)?;
        }
        Ok(())
    }

    /// Returns the cells that the line with the given number uses and that have an entry in the
    /// overlay. The number must be that of the next line to settle, so that no entry has a lesser
    /// one.
    pub(crate) fn cells_at(
        &self,
        alloc: Global,
        overlay: &Overlay,
        number: u32,
    ) -> Result<Vec<Cell>, NoMem>
        ensures { IfOk result (λ cells. (c : CellValue)
            → has_use number c self.now ≡ true → map.contains_key overlay.now c ≡ true
            → has_cell c cells.items ≡ true) }
    {
        let mut cells = Vec::new(alloc);
        for used in self.uses.iter() {
            if used.0 > number {
                return Ok(cells);
            }
            if overlay.get(&used.1).is_some() {
                cells.push(used.1.copy()?)?;
            }
        }
        Ok(cells)
    }

    /// Returns the numbers, up to `last`, of the lines that use a cell with an entry in the
    /// overlay: from the cell's next use on, those of all lines that use it. Takes a few look-ups
    /// for each of these lines and each such cell that it uses.
    pub(crate) fn numbers_until(
        &self,
        alloc: Global,
        history: &History<'_>,
        overlay: &Overlay,
        last: u32,
    ) -> Result<BTreeSet<u32>, NoMem>
        requires sorted { AreSorted self.now }
        requires rising { AreNumbered history.now.lines }
        ensures { IfOk result (λ numbers.
            AreNumbersUntil last overlay.now history.now.lines self.now numbers.keys) }
    {
        let mut numbers = BTreeSet::new(alloc);
        for used in self.uses.iter() {
            if used.0 > last {
                return Ok(numbers);
            }
            if overlay.get(&used.1).is_some() {
                add_numbers(alloc, history, &used.1, used.0, last, &mut numbers)?;
            }
        }
        Ok(numbers)
    }

    /// Removes entries from the front of the set. Stops at the first entry that is of a line after
    /// `after` and whose cell has an entry in the overlay. Takes no memory.
    pub(crate) fn prune(&mut self, after: u32, overlay: &Overlay)
        ensures { Prunes after overlay.now self.old self.new }
    {
        while !self.is_first_over(after, overlay) {
            self.uses.pop_first();
        }
    }

    /// Returns whether `prune` is done: the set is empty, or its first entry is of a line after
    /// `after` and the entry's cell has an entry in the overlay.
    fn is_first_over(&self, after: u32, overlay: &Overlay) -> bool
        ensures { result ≡ is_first_over after overlay.now self.now }
    {
        match self.uses.first() {
            Some(first) => first.0 > after && overlay.get(&first.1).is_some(),
            None => true,
        }
    }
}

/// Returns the given cells together with those that notes change.
pub(crate) fn with_changed(cells: Vec<Cell>, notes: &Notes) -> Result<Vec<Cell>, NoMem>
    ensures kept { IfOk result (λ all. (c : CellValue)
        → has_cell c cells.items ≡ true → has_cell c all.items ≡ true) }
    ensures changed { IfOk result (λ all. (c : CellValue)
        → changes notes.now c ≡ true → has_cell c all.items ≡ true) }
{
    let mut all = cells;
    for note in notes.as_slice() {
        if let Note::Made(change) = note {
            all.push(change.cell().to_cell()?)?;
        }
    }
    Ok(all)
}

/// Adds `from`, and the numbers after it of the lines that use a cell, up to `last`.
fn add_numbers(
    alloc: Global,
    history: &History<'_>,
    cell: &Cell,
    from: u32,
    last: u32,
    numbers: &mut BTreeSet<u32>,
) -> Result<(), NoMem>
    requires { AreNumbered history.now.lines }
    ensures { OnOk result (AddsNumbers from last cell.now history.now.lines
        numbers.old.keys numbers.new.keys) }
{
    let mut next = Some(from);
    while let Some(number) = next {
        if number > last {
            return Ok(());
        }
        numbers.insert(number)?;
        next = history.next_use(alloc, cell, number)?;
    }
    Ok(())
}
