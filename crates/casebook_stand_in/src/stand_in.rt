//! The texts of stand-ins.
ghost use Rattle.std.specs.Prelude.{IfOk, IsTrue, OnOk};
ghost use Rattle.std.specs.List.{list_all};
ghost use Rattle.casebook_stand_in.specs.Lengths.{is_short};
ghost use Rattle.casebook_stand_in.specs.inner.Pens.{IsShort};

use crate::NoMem;
use crate::effect::Effect;
use crate::explain_error::ExplainError;
use crate::pen::Pen;
use crate::shelf::part_of;
use crate::words::{command_on, push_quoted};
use retro_syntax::LONGEST_LINE;
use retro_tree::{Bytes, Cell, Kind, Node, OverlayEntry, Path, State, Text, Value, VarName};
use std::alloc::Global;

/// Room that a quoted character and the quote after it take at most.
const CHARACTER_ROOM: usize = 8;

/// Where the directory is set among the commands of a stand-in.
#[derive(Drop, Clone, Copy, PartialEq, Eq)]
pub(crate) enum CdPlace {
    /// Before all others.
    First,
    /// After those on files.
    Last,
}

/// Writes the commands of a stand-in. No text is too long for a line.
#[derive(Drop)]
struct Writer {
    pen: Pen,
    /// The number of the line whose shelf it copies from.
    line: u32,
    /// How many files of the shelf were used.
    used: u64,
    /// The directory that was removed last.
    removed: Option<Path>,
}

/// Returns the text of a path. That of the root is a slash.
fn path_text(path: &Path) -> &str {
    if path.is_root() { "/" } else { path.as_str() }
}

impl Writer {
    /// Writes a command that is some text and a word. Returns false if it can't be written.
    fn command(&mut self, alloc: Global, start: &str, text: &str) -> Result<bool, NoMem>
        requires { IsShort self.old.pen }
        ensures { OnOk result (IsShort self.new.pen) }
    {
        match command_on(alloc, start, text)? {
            Some(command) => Ok(self.pen.command(alloc, command.as_str())?),
            None => Ok(false),
        }
    }

    /// Writes how a file gets its bytes.
    fn write_file(
        &mut self,
        alloc: Global,
        state: &State,
        path: &Path,
        bytes: &Bytes,
    ) -> Result<bool, NoMem>
        requires { IsShort self.old.pen }
        ensures { OnOk result (IsShort self.new.pen) }
    {
        let old = state.file(path);
        let Some(part) = part_of(old, bytes) else {
            return Ok(true);
        };
        self.used = self.used.saturating_add(1);
        let (line, number) = (self.line, self.used);
        let kept = bytes.len().saturating_sub(part.len());
        let grew = match old {
            Some(old) => old.len() == kept,
            None => false,
        };
        let start = if grew {
            format!(in alloc; "cat /.casebook/{line}/{number} >> ")?
        } else {
            format!(in alloc; "cp /.casebook/{line}/{number} ")?
        };
        self.command(alloc, start.as_str(), path.as_str())
    }

    /// Returns the kind of the node at a path, once the directory that was removed last is gone.
    fn kind_now(&self, state: &State, path: &Path) -> Kind {
        if let Some(removed) = &self.removed {
            if path.starts_with(removed) {
                return Kind::Missing;
            }
        }
        state.kind(path)
    }

    /// Writes how a node gets to a path.
    fn write_node(
        &mut self,
        alloc: Global,
        state: &State,
        path: &Path,
        node: &Node,
    ) -> Result<bool, NoMem>
        requires { IsShort self.old.pen }
        ensures { OnOk result (IsShort self.new.pen) }
    {
        let kind = self.kind_now(state, path);
        let stays = match node {
            Node::Missing => kind == Kind::Missing,
            Node::Dir => kind == Kind::Missing || kind == Kind::Dir,
            Node::File(_) => kind == Kind::Missing || kind == Kind::File,
        };
        if !stays {
            if kind == Kind::Dir {
                self.removed = Some(path.copy()?);
            }
            let start = if kind == Kind::Dir { "rm -r " } else { "rm " };
            if !self.command(alloc, start, path.as_str())? {
                return Ok(false);
            }
        }
        match node {
            Node::Missing => Ok(true),
            Node::Dir => {
                if kind == Kind::Dir {
                    return Ok(true);
                }
                self.command(alloc, "mkdir ", path.as_str())
            }
            Node::File(bytes) => self.write_file(alloc, state, path, bytes),
        }
    }

    /// Writes how a variable gets its value: piece by piece if it is too long for a line.
    fn write_var(&mut self, alloc: Global, name: &VarName, text: &Text) -> Result<bool, NoMem>
        requires { IsShort self.old.pen }
        ensures { OnOk result (IsShort self.new.pen) }
    {
        let name = name.as_str();
        let mut command = format!(in alloc; "{name}='")?;
        for c in text.as_str().chars() {
            if command.len() > LONGEST_LINE - CHARACTER_ROOM {
                command.push('\'')?;
                if !self.pen.command(alloc, command.as_str())? {
                    return Ok(false);
                }
                command = format!(in alloc; "{name}=${name}'")?;
            }
            if !push_quoted(&mut command, c)? {
                return Ok(false);
            }
        }
        command.push('\'')?;
        self.pen.command(alloc, command.as_str())
    }

    /// Writes how a status comes about. It is 0 after all other commands.
    fn write_status(&mut self, alloc: Global, status: u8) -> Result<bool, NoMem>
        requires { IsShort self.old.pen }
        ensures { OnOk result (IsShort self.new.pen) }
    {
        if status != 0 {
            return self.pen.command(alloc, "false");
        }
        if self.pen.is_empty() {
            return self.pen.command(alloc, "true");
        }
        Ok(true)
    }

    /// Writes how a cell gets the value that was seen. Writes nothing if it has this value.
    fn write(
        &mut self,
        alloc: Global,
        state: &State,
        cell: &Cell,
        seen: &Value,
    ) -> Result<(), ExplainError>
        requires { IsShort self.old.pen }
        ensures { OnOk result (IsShort self.new.pen) }
    {
        let is_written = match (cell, seen) {
            (Cell::At(path), Value::Node(node)) => self.write_node(alloc, state, path, node)?,
            (Cell::Status(_), Value::Status(status)) => self.write_status(alloc, *status)?,
            (Cell::Cwd(_), Value::Cwd(path)) => {
                if state.value(alloc, cell)?.is_same(seen) {
                    true
                } else {
                    self.command(alloc, "cd ", path_text(path))?
                }
            }
            (Cell::Var(_, name), Value::Text(Some(text))) => {
                if state.value(alloc, cell)?.is_same(seen) {
                    true
                } else {
                    self.write_var(alloc, name, text)?
                }
            }
            _ => false,
        };
        if is_written {
            Ok(())
        } else {
            Err(ExplainError::Unwritten(cell.copy()?))
        }
    }
}

/// Returns the texts of a stand-in for an effect, by the state before it. Its commands are in the
/// order of cells: those on files by their paths, then the directory and variables, and the status
/// last.
pub(crate) fn stand_in_texts(
    alloc: Global,
    state: &State,
    line: u32,
    effect: &Effect,
    place: CdPlace,
) -> Result<Vec<Text>, ExplainError>
    ensures { IfOk result (λ texts. IsTrue (list_all is_short texts.items)) }
{
    let mut writer = Writer {
        pen: Pen::new(alloc),
        line,
        used: 0,
        removed: None,
    };
    if place == CdPlace::First {
        let cell = Cell::Cwd(effect.sid());
        if let Some(seen) = effect.cells().get_value(&cell) {
            writer.write(alloc, state, &cell, seen)?;
        }
    }
    for (cell, entry) in effect.cells().iter() {
        let is_done = place == CdPlace::First && matches!(cell, Cell::Cwd(_));
        if let OverlayEntry::Value(seen) = entry {
            if !is_done {
                writer.write(alloc, state, cell, seen)?;
            }
        }
    }
    let Writer {
        pen,
        line: _,
        used: _,
        removed: _,
    } = writer;
    Ok(pen.finish(alloc)?)
}
