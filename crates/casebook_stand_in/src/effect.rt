//! Effects of lines.
ghost use Rattle.std.specs.Prelude.{◌≡◌, IfOk, OnErr, OnOk};
ghost use Rattle.retro_tree.specs.declared.cell.Cell.TheVariants as Cell;
ghost use Rattle.retro_tree.specs.declared.value.Value.TheVariants as Value;
ghost use Rattle.casebook_stand_in.specs.Effect.{IsEffect, observed, stands_as, standing};
ghost use Rattle.casebook_stand_in.specs.Effect.{status_alone, with_cell};

use crate::NoMem;
use retro_tree::{Cell, Node, Overlay, Path, State, Text, Value, VarName};
use std::alloc::Global;
use std::marker::Model;

/// What a line was seen to leave behind: in the watched folders the nodes of the paths that it
/// changed, and in its session the directory, variables and status that changed.
///
/// Each path, and each part of the session, is kept once. A later value replaces an earlier one.
/// The order in which they are set doesn't matter otherwise.
#[derive(Drop)]
pub struct Effect {
    sid: u32,
    cells: Overlay,
}

impl Model for Effect {
    ghost use Rattle.casebook_stand_in.specs.Effect.{EffectValue, IsEffect};
    ghost use Rattle.casebook_stand_in.specs.inner.EffectCode.{coded_effect};

    ghost Value = { EffectValue };

    ghost coded = { coded_effect };

    ghost view = { λ a. record { sid = a.sid; cells = a.cells } };

    ghost invariant = { λ a. IsEffect (record { sid = a.sid; cells = a.cells }) };
}

/// Returns the status that stands for one that was observed. No line has a status other than 0 and
/// 1 and prints nothing.
fn stands_as(status: u8) -> u8
    ensures { result ≡ stands_as status }
{
    if status == 0 { 0 } else { 1 }
}

impl Effect {
    /// Returns the effect of a line that changes nothing but the status of its session.
    pub fn new(alloc: Global, sid: u32, status: u8) -> Result<Effect, NoMem>
        ensures { IfOk result (λ effect. effect ≡ status_alone sid status) }
    {
        let mut effect = Effect {
            sid,
            cells: Overlay::new(alloc),
        };
        effect.set_status(status)?;
        Ok(effect)
    }

    /// Sets the status that the session has after the line.
    fn set_status(&mut self, status: u8) -> Result<(), NoMem>
        ensures { OnOk result
            (self.new ≡ with_cell (Cell.Status self.old.sid) (Value.Status status) self.old) }
    {
        self.cells
            .insert(Cell::Status(self.sid), Value::Status(status))
    }

    /// Sets what is at a path after the line. `Missing` says that nothing is.
    pub fn set_node(&mut self, path: Path, node: Node) -> Result<(), NoMem>
        ensures ok { OnOk result
            (self.new ≡ with_cell (Cell.At path) (Value.Node node) self.old) }
        ensures err { OnErr result (self.new ≡ self.old) }
    {
        self.cells.insert(Cell::At(path), Value::Node(node))
    }

    /// Sets the directory that the session has after the line.
    pub fn set_cwd(&mut self, path: Path) -> Result<(), NoMem>
        ensures ok { OnOk result
            (self.new ≡ with_cell (Cell.Cwd self.old.sid) (Value.Cwd path) self.old) }
        ensures err { OnErr result (self.new ≡ self.old) }
    {
        self.cells.insert(Cell::Cwd(self.sid), Value::Cwd(path))
    }

    /// Sets the value that a variable of the session has after the line. No line of the profile
    /// unsets a variable: one that was unset counts as empty.
    pub fn set_var(&mut self, name: VarName, text: Text) -> Result<(), NoMem>
        ensures ok { OnOk result (self.new
            ≡ with_cell (Cell.Var self.old.sid name) (Value.Text (Some text)) self.old) }
        ensures err { OnErr result (self.new ≡ self.old) }
    {
        self.cells
            .insert(Cell::Var(self.sid, name), Value::Text(Some(text)))
    }

    /// Returns the number of the line's session.
    pub fn sid(&self) -> u32
        ensures value { result ≡ self.now.sid }
        ensures effect { IsEffect self.now }
    {
        self.sid
    }

    /// Returns the cells that changed, each with its value.
    pub fn cells(&self) -> &Overlay
        ensures value { result.now ≡ self.now.cells }
        ensures effect { IsEffect self.now }
    {
        &self.cells
    }

    /// Returns the effect that stands for this one: its status is 0 or 1.
    pub(crate) fn into_standing(self) -> Result<Effect, NoMem>
        ensures { IfOk result (λ effect. effect ≡ standing self) }
    {
        let mut effect = self;
        let cell = Cell::Status(effect.sid);
        if let Some(Value::Status(status)) = effect.cells.get_value(&cell) {
            let status = stands_as(*status);
            effect.set_status(status)?;
        }
        Ok(effect)
    }

    /// Leaves the observed state of a state: sets exactly the cells that changed.
    pub fn make(&self, alloc: Global, state: &mut State) -> Result<(), NoMem>
        ensures ok { OnOk result (state.new ≡ observed self.now state.old) }
        ensures err { OnErr result (state.new ≡ state.old) }
    {
        self.cells.copy(alloc)?.commit(alloc, state)
    }
}
