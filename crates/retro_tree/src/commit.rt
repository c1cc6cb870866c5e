//! Commits of an overlay to a state.
ghost use Rattle.std.specs.Prelude.{◌≡◌, ◌↔◌, IsTrue, IfOk, OnOk, OnErr, [], reverse, Some};
ghost use Rattle.std.specs.Prelude.{true, false};
ghost use Rattle.std.specs.List.{list_all};
ghost use Rattle.std.specs.FinMap as map;
ghost use Rattle.retro_tree.specs.Node.{is_present};
ghost use Rattle.retro_tree.specs.State.{put_node, grow_file};
ghost use Rattle.retro_tree.specs.Change.{put_setting};
ghost use Rattle.retro_tree.specs.Commit.{put_cell, put_cells};
ghost use Rattle.retro_tree.specs.inner.CommitSteps.{removes, removals, writes, undo_all};
ghost use Rattle.retro_tree.specs.inner.CommitSteps.{CanUndoAll};
ghost use Rattle.retro_tree.specs.inner.CommitSteps.{Undoes, WasLawful, written_paths, keeps_law};
ghost use Rattle.retro_tree.specs.inner.CommitSteps.{path_of, undone_path};
ghost use Rattle.retro_tree.specs.Lawful.{IsLawfulTree};
ghost use Rattle.retro_tree.specs.declared.overlay_entry.OverlayEntry.TheVariants as OverlayEntry;

use crate::cell::Cell;
use crate::kind::Kind;
use crate::node::Node;
use crate::overlay::Overlay;
use crate::overlay_entry::OverlayEntry;
use crate::setting::Setting;
use crate::state::State;
use crate::tree::Tree;
use crate::undo::Undo;
use crate::value::Value;
use retro_path::{Bytes, NoMem, Path};
use std::alloc::Global;

/// A commit in progress. Writes come first, because they take memory. If memory runs out, they are
/// undone, which takes none. Removals take none, so they come last.
#[derive(Drop)]
pub(crate) struct Commit {
    undos: Vec<Undo>,
    removals: Vec<(Cell, OverlayEntry)>,
}

impl Commit {
    /// Returns a commit that has written nothing. Takes no memory.
    pub(crate) fn new(alloc: Global) -> Commit
        ensures undos { result.undos.items ≡ [] }
        ensures removals { result.removals.items ≡ [] }
    {
        Commit {
            undos: Vec::new(alloc),
            removals: Vec::new(alloc),
        }
    }

    /// Writes all entries of an overlay to a state but the removals, which it collects. The writes
    /// can be undone, also if memory runs out.
    pub(crate) fn write_all(
        &mut self,
        alloc: Global,
        overlay: Overlay,
        state: &mut State,
    ) -> Result<(), NoMem>
        requires undos { self.old.undos.items ≡ [] }
        requires removals { self.old.removals.items ≡ [] }
        ensures can { CanUndoAll (reverse self.new.undos.items) state.new }
        ensures undone { undo_all (reverse self.new.undos.items) state.new ≡ state.old }
        ensures ok { OnOk result (state.new ≡ put_cells (writes (map.entries overlay)) state.old) }
        ensures removals { OnOk result
            (self.new.removals.items ≡ removals (map.entries overlay)) }
    {
        for (cell, entry) in overlay.into_entries() {
            if entry.removes() {
                self.removals.push((cell, entry))?;
            } else {
                write_one(alloc, state, &mut self.undos, cell, entry)?;
            }
        }
        Ok(())
    }

    /// Makes the removals. Takes no memory.
    pub(crate) fn remove_all(&self, state: &mut State)
        requires { list_all (λ e. removes e.1) self.now.removals.items ≡ true }
        ensures { state.new ≡ put_cells self.now.removals.items state.old }
    {
        for (cell, entry) in &self.removals {
            erase(state, cell, entry);
        }
    }

    /// Finds out whether a state is lawful after a commit, if it was lawful before, and remembers
    /// the answer. Looks only at the paths that the commit wrote, and at the sessions if a setting
    /// isn't lawful. Takes no memory.
    pub(crate) fn revalidate(self, state: &mut State)
        requires { WasLawful (written_paths self.undos.items self.removals.items) state.old.tree }
        ensures { state.new ≡ state.old }
    {
        if !state.tree.is_known_lawful() && self.leaves_lawful(&state.tree) {
            state.tree.mark_lawful();
        }
        if !state.sessions.is_known_lawful() {
            state.sessions.validate();
        }
    }

    /// Returns whether a tree that was lawful before the commit is lawful after it. Looks only at
    /// the paths that the commit wrote, their parents and the first entries below them. Removals
    /// are tested from the last to the first, so that nothing is left below a path that passes.
    fn leaves_lawful(self, tree: &Tree) -> bool
        requires { WasLawful (written_paths self.undos.items self.removals.items) tree.now }
        ensures { IsTrue result ↔ IsLawfulTree tree.now }
    {
        let Commit { undos, removals } = self;
        removals_keep_law(removals, tree) && undos_keep_law(undos, tree)
    }

    /// Undoes the writes, from the last to the first. Takes no memory.
    pub(crate) fn undo_all(&mut self, state: &mut State)
        requires { CanUndoAll (reverse self.old.undos.items) state.old }
        ensures { state.new ≡ undo_all (reverse self.old.undos.items) state.old }
    {
        while let Some(undo) = self.undos.pop() {
            undo.apply(state);
        }
    }
}

/// Returns whether a tree is lawful at the paths of removals. Tests them from the last to the
/// first.
#[tactic(auto, using(crate::proofs::CommittedLaw::last_tested))]
fn removals_keep_law(mut removals: Vec<(Cell, OverlayEntry)>, tree: &Tree) -> bool
    ensures { result ≡ list_all (λ e. keeps_law (path_of e.0) tree.now) removals.items }
{
    while let Some((cell, _)) = removals.pop() {
        if !cell_keeps_law(cell, tree) {
            return false;
        }
    }
    true
}

/// Returns whether a tree is lawful at the path of a cell. Returns true for a cell of a session.
fn cell_keeps_law(cell: Cell, tree: &Tree) -> bool
    ensures { result ≡ keeps_law (path_of cell) tree.now }
{
    match cell {
        Cell::At(path) => tree.keeps_law_at(path),
        Cell::Cwd(_) | Cell::Var(..) | Cell::Status(_) => true,
    }
}

/// Returns whether a tree is lawful at the paths of writes.
fn undos_keep_law(undos: Vec<Undo>, tree: &Tree) -> bool
    ensures { result ≡ list_all (λ u. keeps_law (undone_path u) tree.now) undos.items }
{
    undos.into_iter().all(|undo| undo.keeps_law(tree))
}

/// Writes an entry that is no removal to a state, and appends how to undo that.
#[tactic(auto, using(crate::proofs::OverlayCommit::unwinding))]
fn write_one(
    alloc: Global,
    state: &mut State,
    undos: &mut Vec<Undo>,
    cell: Cell,
    entry: OverlayEntry,
) -> Result<(), NoMem>
    requires entry { removes entry ≡ false }
    requires can { CanUndoAll (reverse undos.old.items) state.old }
    ensures can { CanUndoAll (reverse undos.new.items) state.new }
    ensures undone { undo_all (reverse undos.new.items) state.new
        ≡ undo_all (reverse undos.old.items) state.old }
    ensures ok { OnOk result (state.new ≡ put_cell cell entry state.old) }
{
    let Some(undo) = write_entry(alloc, state, cell, entry)? else {
        return Ok(());
    };
    if let Err(failed) = undos.push(undo) {
        failed.value.apply(state);
        return Err(NoMem);
    }
    Ok(())
}

/// Writes an entry that is no removal to a state. Returns how to undo that, or `None` if it changes
/// nothing.
#[tactic(auto, unfolding(crate::specs::Commit::put_cell))]
fn write_entry(
    alloc: Global,
    state: &mut State,
    cell: Cell,
    entry: OverlayEntry,
) -> Result<Option<Undo>, NoMem>
    requires { removes entry ≡ false }
    ensures ok { OnOk result (state.new ≡ put_cell cell entry state.old) }
    ensures undo { IfOk result (λ undo. Undoes undo state.new state.old) }
    ensures err { OnErr result (state.new ≡ state.old) }
{
    match (cell, entry) {
        (cell, OverlayEntry::Value(value)) => write_value(alloc, state, cell, value),
        (Cell::At(path), OverlayEntry::Growth(bytes)) => write_growth(state, path, bytes),
        (Cell::Cwd(_) | Cell::Var(..) | Cell::Status(_), OverlayEntry::Growth(_)) => Ok(None),
    }
}

/// Writes a value that is no removal to a cell. Returns how to undo that, or `None` if the value
/// isn't of the cell's kind.
#[tactic(auto, unfolding(crate::specs::Commit::put_cell))]
fn write_value(
    alloc: Global,
    state: &mut State,
    cell: Cell,
    value: Value,
) -> Result<Option<Undo>, NoMem>
    requires { removes (OverlayEntry.Value value) ≡ false }
    ensures ok { OnOk result (state.new ≡ put_cell cell (OverlayEntry.Value value) state.old) }
    ensures undo { IfOk result (λ undo. Undoes undo state.new state.old) }
    ensures err { OnErr result (state.new ≡ state.old) }
{
    match cell {
        Cell::At(path) => match value {
            Value::Node(Node::Dir) => Ok(Some(write_node(state, path, Node::Dir)?)),
            Value::Node(Node::File(bytes)) => {
                Ok(Some(write_node(state, path, Node::File(bytes))?))
            }
            _ => Ok(None),
        },
        Cell::Cwd(sid) => match value {
            Value::Cwd(path) => { Ok(Some(write_setting(alloc, state, sid, Setting::Cwd(path))?)) }
            _ => Ok(None),
        },
        Cell::Var(sid, name) => match value {
            Value::Text(Some(text)) => {
                Ok(Some(write_setting(alloc, state, sid, Setting::Var(name, text))?))
            }
            _ => Ok(None),
        },
        Cell::Status(sid) => match value {
            Value::Status(status) => {
                Ok(Some(write_setting(alloc, state, sid, Setting::Status(status))?))
            }
            _ => Ok(None),
        },
    }
}

/// Appends bytes to the file at a path, in place. Returns how to undo that, or `None` if nothing
/// changes. A missing file is made of the bytes themselves. A directory stays unchanged.
#[tactic(auto, using(crate::proofs::Undoing::growing))]
fn write_growth(state: &mut State, path: Path, bytes: Bytes) -> Result<Option<Undo>, NoMem>
    ensures ok { OnOk result (state.new ≡ grow_file path bytes state.old) }
    ensures undo { IfOk result (λ undo. Undoes undo state.new state.old) }
    ensures err { OnErr result (state.new ≡ state.old) }
{
    match state.tree.kind(&path) {
        Kind::Missing => Ok(Some(write_node(state, path, Node::File(bytes))?)),
        Kind::Dir => Ok(None),
        Kind::File => {
            let length = state.tree.size(&path);
            state.tree.grow(&path, &bytes)?;
            Ok(Some(Undo::Length(path, length)))
        }
    }
}

/// Puts a directory or a file at a path, and returns how to undo that.
fn write_node(state: &mut State, path: Path, node: Node) -> Result<Undo, NoMem>
    requires { is_present node ≡ true }
    ensures ok { OnOk result (state.new ≡ put_node path node state.old) }
    ensures undo { IfOk result (λ undo. Undoes (Some undo) state.new state.old) }
    ensures err { OnErr result (state.new ≡ state.old) }
{
    let key = path.copy()?;
    let previous = state.tree.exchange(path, node)?;
    Ok(Undo::Entry(key, previous))
}

/// Makes a setting in a session, and returns how to undo that.
#[tactic(auto, using(crate::proofs::Undoing::undoing))]
fn write_setting(
    alloc: Global,
    state: &mut State,
    sid: u32,
    setting: Setting,
) -> Result<Undo, NoMem>
    ensures ok { OnOk result (state.new ≡ put_setting sid setting state.old) }
    ensures undo { IfOk result (λ undo. Undoes (Some undo) state.new state.old) }
    ensures err { OnErr result (state.new ≡ state.old) }
{
    match state.sessions.set(alloc, sid, setting)? {
        None => Ok(Undo::Session(sid)),
        Some(previous) => Ok(Undo::Setting(sid, previous)),
    }
}

/// Makes a removal. Takes no memory.
#[tactic(auto, unfolding(crate::specs::Commit::put_cell))]
fn erase(state: &mut State, cell: &Cell, entry: &OverlayEntry)
    requires { removes entry.now ≡ true }
    ensures { state.new ≡ put_cell cell.now entry.now state.old }
{
    match cell {
        Cell::At(path) => {
            if let OverlayEntry::Value(Value::Node(_)) = entry {
                state.tree.erase(path);
            }
        }
        Cell::Var(sid, name) => {
            if let OverlayEntry::Value(Value::Text(_)) = entry {
                state.sessions.unset(*sid, name);
            }
        }
        Cell::Cwd(_) | Cell::Status(_) => (),
    }
}
