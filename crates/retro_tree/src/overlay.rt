//! Overlays.
ghost use Rattle.std.specs.Prelude.{◌≡◌, ◌≢◌, ◌↔◌, ◌||◌, IfOk, IsTrue, OnOk, OnErr, is_some, true};
ghost use Rattle.std.specs.Option.{option_copied, option_map};
ghost use Rattle.std.specs.FinMap as map;
ghost use Rattle.retro_tree.specs.Cell.{value as value_at};
ghost use Rattle.retro_tree.specs.Ask.{answer, names_in};
ghost use Rattle.retro_tree.specs.Change.{apply, cell_of};
ghost use Rattle.retro_tree.specs.Notes.{cell_eq};
ghost use Rattle.retro_tree.specs.Overlay.{Overlays, Fits, AllValues, fits_cell, is_value};
ghost use Rattle.retro_tree.specs.Overlay.{grown_at, replaced_at};
ghost use Rattle.retro_tree.specs.Commit.{committed};
ghost use Rattle.retro_tree.specs.inner.Marks.{overlay_from, starts_below};
ghost use Rattle.retro_tree.specs.declared.cell.Cell.{Cell as StateCell};
ghost use Rattle.retro_tree.specs.declared.cell.Cell.TheVariants as Cell;
ghost use Rattle.retro_tree.specs.declared.change.Change.TheVariants as Change;
ghost use Rattle.retro_tree.specs.declared.overlay_entry.OverlayEntry.TheVariants as OverlayEntry;
ghost use Rattle.retro_tree.specs.declared.state.State.{State as StateValue};

use crate::answer::Answer;
use crate::ask::Ask;
use crate::cell::Cell;
use crate::change::Change;
use crate::combined::Combined;
use crate::commit::Commit;
use crate::overlay_entry::OverlayEntry;
use crate::state::State;
use crate::value::Value;
use crate::view::View;
use retro_path::{Bytes, Listing, NoMem, Path};
use std::alloc::Global;
use std::collections::BTreeMap;
use std::collections::btree_map::{IntoIter, Iter, Range};
use std::marker::Model;
use std::mem::replace;

/// Entries for some cells of a state. The other cells are those of a view.
///
/// Overlay and view together give the combined state. A cell with an entry has the entry's value,
/// or the view's file with bytes appended. Every other cell has the view's value. An overlay copies
/// none of the view's files.
#[derive(Drop)]
pub struct Overlay {
    cells: BTreeMap<Cell, OverlayEntry>,
}

impl Model for Overlay {
    ghost use Rattle.std.specs.FinMap as map;
    ghost use Rattle.retro_tree.specs.CellOrder.{cell_cmp, coded_cell, coded_overlay_entry};
    ghost use Rattle.retro_tree.specs.declared.overlay_entry.OverlayEntry.{OverlayEntry};

    ghost Value = { map.FinMap cell_cmp OverlayEntry };

    ghost coded = { map.code coded_cell coded_overlay_entry };

    ghost view = { λ a. map.from_entries a.cells.entries };
}

impl Overlay {
    /// Returns an overlay without entries. Takes no memory.
    #[tactic(auto, using(crate::proofs::OverlayCalls::new_overlay))]
    pub fn new(alloc: Global) -> Overlay
        ensures value { result ≡ map.empty }
        ensures overlays { (s : StateValue) → Overlays result s s }
        ensures committed { (s : StateValue) → committed result s ≡ s }
        ensures fits { Fits result }
        ensures values { AllValues result }
    {
        Overlay {
            cells: BTreeMap::new(alloc),
        }
    }

    /// Returns the entry of a cell, or `None` if it has none.
    pub fn get(&self, cell: &Cell) -> Option<&OverlayEntry>
        ensures { option_copied result ≡ map.get self.now cell.now }
    {
        self.cells.get(cell)
    }

    /// Returns the value of a cell's entry, or `None` if the cell has none. No entry may be a
    /// growth.
    pub fn get_value(&self, cell: &Cell) -> Option<&Value>
        requires { AllValues self.now }
        ensures { option_map OverlayEntry.Value (option_copied result)
            ≡ map.get self.now cell.now }
    {
        match self.get(cell) {
            Some(OverlayEntry::Value(value)) => Some(value),
            Some(OverlayEntry::Growth(_)) => unreachable!(),
            None => None,
        }
    }

    /// Sets the value of a cell.
    #[tactic(auto, using(crate::proofs::OverlayCalls::insertion))]
    pub fn insert(&mut self, cell: Cell, value: Value) -> Result<(), NoMem>
        ensures ok { OnOk result
            (self.new ≡ map.insert self.old cell (OverlayEntry.Value value)) }
        ensures overlays { OnOk result ((below now next : StateValue)
            → Overlays self.old below now
            → value_at cell next ≡ value
            → ((c : StateCell) → c ≢ cell → value_at c next ≡ value_at c now)
            → Overlays self.new below next) }
        ensures fits { OnOk result
            (fits_cell cell (OverlayEntry.Value value) ≡ true → Fits self.old → Fits self.new) }
        ensures values { OnOk result (AllValues self.old → AllValues self.new) }
        ensures err { OnErr result (self.new ≡ self.old) }
    {
        self.set(cell, OverlayEntry::Value(value))
    }

    /// Sets the entry of a cell.
    fn set(&mut self, cell: Cell, entry: OverlayEntry) -> Result<(), NoMem>
        ensures ok { OnOk result (self.new ≡ map.insert self.old cell entry) }
        ensures err { OnErr result (self.new ≡ self.old) }
    {
        self.cells.insert(cell, entry)?;
        Ok(())
    }

    /// Removes the entry of a cell, so that the cell has the view's value. Takes no memory.
    #[tactic(auto, using(crate::proofs::Fitting::fits_removed))]
    pub fn remove(&mut self, cell: &Cell)
        ensures value { self.new ≡ map.remove self.old cell.now }
        ensures overlays { (below now next : StateValue)
            → Overlays self.old below now
            → value_at cell.now next ≡ value_at cell.now below
            → ((c : StateCell) → c ≢ cell.now → value_at c next ≡ value_at c now)
            → Overlays self.new below next }
        ensures fits { Fits self.old → Fits self.new }
        ensures values { AllValues self.old → AllValues self.new }
    {
        self.cells.remove(cell);
    }

    /// Replaces the entry of a cell and returns the previous one. If the cell has no entry, changes
    /// nothing and returns `None`. Takes no memory.
    pub fn replace(&mut self, cell: &Cell, entry: OverlayEntry) -> Option<OverlayEntry>
        ensures previous { result ≡ map.get self.old cell.now }
        ensures new { self.new
            ≡ replaced_at cell.now entry (map.get self.old cell.now) self.old }
        ensures fits { fits_cell cell.now entry ≡ true → Fits self.old → Fits self.new }
        ensures values { is_value entry ≡ true → AllValues self.old → AllValues self.new }
    {
        if let Some(slot) = self.cells.get_mut(cell) {
            return Some(replace(slot, entry));
        }
        None
    }

    /// Appends bytes to the entry of a cell, in place. A value grows as its cell does, and a growth
    /// gets longer. If the cell has no entry, changes nothing and returns false.
    pub fn grow(&mut self, cell: &Cell, bytes: &Bytes) -> Result<bool, NoMem>
        ensures done { IfOk result (λ done. done ≡ is_some (map.get self.old cell.now)) }
        ensures ok { OnOk result
            (self.new ≡ grown_at cell.now bytes.now (map.get self.old cell.now) self.old) }
        ensures fits { OnOk result (Fits self.old → Fits self.new) }
        ensures values { OnOk result (AllValues self.old → AllValues self.new) }
        ensures err { OnErr result (self.new ≡ self.old) }
    {
        if let Some(entry) = self.cells.get_mut(cell) {
            entry.grow(bytes)?;
            return Ok(true);
        }
        Ok(false)
    }

    /// Makes a change in the combined state. The entries of other cells stay unchanged. A growth
    /// takes time in proportion to its own bytes: no file is read or copied.
    #[tactic(auto, using(crate::proofs::OverlayCalls::changes))]
    pub fn apply(&mut self, change: Change) -> Result<(), NoMem>
        ensures ok { OnOk result ((below now : StateValue)
            → Overlays self.old below now
            → Overlays self.new below (apply change now)) }
        ensures committed { OnOk result ((below now : StateValue)
            → Overlays self.old below now
            → committed self.old below ≡ now
            → committed self.new below ≡ apply change now) }
        ensures cells { OnOk result ((c : StateCell) → map.contains_key self.new c
            ≡ (cell_eq (cell_of change) c || map.contains_key self.old c)) }
        ensures unchanged { OnOk result ((c : StateCell) → c ≢ cell_of change
            → map.get self.new c ≡ map.get self.old c) }
        ensures fits { OnOk result (Fits self.old → Fits self.new) }
        ensures err { OnErr result (self.new ≡ self.old) }
    {
        match change {
            Change::Put(path, node) => self.insert(Cell::At(path), Value::Node(node))?,
            Change::Grow(path, bytes) => self.apply_growth(path, bytes)?,
            Change::SetVar(sid, name, text) => {
                self.insert(Cell::Var(sid, name), Value::Text(Some(text)))?
            }
            Change::SetCwd(sid, path) => self.insert(Cell::Cwd(sid), Value::Cwd(path))?,
            Change::SetStatus(sid, status) => {
                self.insert(Cell::Status(sid), Value::Status(status))?
            }
        }
        Ok(())
    }

    /// Makes a growth: appends the bytes to the entry of the path, or makes them its entry if it
    /// has none.
    #[tactic(auto, using(crate::proofs::OverlayCalls::changes))]
    fn apply_growth(&mut self, path: Path, bytes: Bytes) -> Result<(), NoMem>
        ensures ok { OnOk result ((below now : StateValue)
            → Overlays self.old below now
            → Overlays self.new below (apply (Change.Grow path bytes) now)) }
        ensures committed { OnOk result ((below now : StateValue)
            → Overlays self.old below now
            → committed self.old below ≡ now
            → committed self.new below ≡ apply (Change.Grow path bytes) now) }
        ensures cells { OnOk result ((c : StateCell) → map.contains_key self.new c
            ≡ (cell_eq (cell_of (Change.Grow path bytes)) c || map.contains_key self.old c)) }
        ensures unchanged { OnOk result ((c : StateCell) → c ≢ cell_of (Change.Grow path bytes)
            → map.get self.new c ≡ map.get self.old c) }
        ensures fits { OnOk result (Fits self.old → Fits self.new) }
        ensures err { OnErr result (self.new ≡ self.old) }
    {
        let cell = Cell::At(path);
        if self.grow(&cell, &bytes)? {
            return Ok(());
        }
        self.set(cell, OverlayEntry::Growth(bytes))
    }

    /// Returns the entries, in order of cells.
    pub fn iter(&self) -> Iter<'_, Cell, OverlayEntry>
        ensures { result ≡ map.entries self.now }
    {
        self.cells.iter()
    }

    /// Returns the entries with their cells, in order of cells.
    pub fn into_entries(self) -> IntoIter<Cell, OverlayEntry>
        ensures { result ≡ map.entries self }
    {
        self.cells.into_iter()
    }

    /// Returns the entries of a cell and of the cells after it, in order.
    pub(crate) fn from(&self, cell: &Cell) -> Range<'_, Cell, OverlayEntry>
        ensures { result ≡ overlay_from cell.now self.now }
    {
        self.cells.range(cell..)
    }

    /// Returns whether the cell of a path, or of a path below it, has an entry.
    pub(crate) fn has_entry_below(&self, path: &Path) -> Result<bool, NoMem>
        ensures { IfOk result (λ has.
            has ≡ starts_below path.now (overlay_from (Cell.At path.now) self.now)) }
    {
        let start = Cell::At(path.copy()?);
        match self.from(&start).next() {
            Some((Cell::At(at), _)) => Ok(at.starts_with(path)),
            _ => Ok(false),
        }
    }

    /// Returns the number of entries.
    pub fn len(&self) -> usize
        ensures { result ≡ map.len self.now }
    {
        self.cells.len()
    }

    /// Returns whether there are no entries.
    pub fn is_empty(&self) -> bool
        ensures { IsTrue result ↔ (map.len self.now ≡ 0) }
    {
        self.len() == 0
    }

    /// Returns a copy.
    pub fn copy(&self, alloc: Global) -> Result<Overlay, NoMem>
        ensures { IfOk result (λ copy. copy ≡ self.now) }
    {
        let mut copy = Overlay::new(alloc);
        for (cell, entry) in self.iter() {
            copy.set(cell.copy()?, entry.copy()?)?;
        }
        Ok(copy)
    }

    /// Returns the combined state's answer to a query.
    #[tactic(auto, using(crate::proofs::Answering::answered_below))]
    pub fn answer<V: View>(&self, alloc: Global, view: &V, ask: &Ask) -> Result<Answer, NoMem>
        ensures { IfOk result (λ a. (now : StateValue)
            → Overlays self.now (V.state view.now) now → a ≡ answer ask.now now) }
    {
        if self.is_empty() {
            return view.answer(alloc, ask);
        }
        Combined::new(view, self).answer(alloc, ask)
    }

    /// Returns the value of a cell in the combined state.
    pub fn value<V: View>(&self, alloc: Global, view: &V, cell: &Cell) -> Result<Value, NoMem>
        ensures { IfOk result (λ value. (now : StateValue)
            → Overlays self.now (V.state view.now) now → value ≡ value_at cell.now now) }
    {
        Combined::new(view, self).value(alloc, cell)
    }

    /// Returns the names of the children of a path in the combined state, in byte order, whatever
    /// node is at the path itself. Takes time in proportion to the view's names and to the children
    /// with entries, times the logarithm of all entries.
    pub fn children<V: View>(&self, alloc: Global, view: &V, path: &Path) -> Result<Listing, NoMem>
        ensures { IfOk result (λ names. (now : StateValue)
            → Overlays self.now (V.state view.now) now → names ≡ names_in path.now now.tree) }
    {
        Combined::new(view, self).children(alloc, path)
    }

    /// Commits all entries to a state. Files grow in place. Cells without an entry are neither
    /// copied nor read.
    #[tactic(auto, using(crate::proofs::PutCells::cells_committed))]
    pub fn commit(self, alloc: Global, state: &mut State) -> Result<(), NoMem>
        ensures ok { OnOk result (state.new ≡ committed self state.old) }
        ensures cells { OnOk result ((now : StateValue)
            → Overlays self state.old now
            → (c : StateCell) → value_at c state.new ≡ value_at c now) }
        ensures err { OnErr result (state.new ≡ state.old) }
    {
        let was_known = state.is_known_lawful();
        let mut commit = Commit::new(alloc);
        match commit.write_all(alloc, self, state) {
            Ok(()) => {
                commit.remove_all(state);
                if was_known {
                    commit.revalidate(state);
                }
                Ok(())
            }
            Err(error) => {
                commit.undo_all(state);
                if was_known {
                    state.mark_lawful();
                }
                Err(error)
            }
        }
    }
}
