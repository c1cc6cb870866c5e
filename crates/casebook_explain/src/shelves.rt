//! The first state of a recording: the observed one, with the shelves of lines.
ghost use Rattle.std.specs.Prelude.{◌≡◌, ◌<◌, ◌^◌, IfOk, OnOk, length};
ghost use Rattle.casebook_explain.specs.Shelves.{with_shelf, with_shelves};

use crate::NoMem;
use crate::places::{casebook, shelf_directory, shelf_path};
use crate::seen_line::SeenLine;
use casebook_stand_in::shelf_of;
use retro_tree::{Bytes, Node, State};
use std::alloc::Global;

/// Puts files on the shelf of a line.
fn put_shelf(alloc: Global, state: &mut State, line: u32, files: Vec<Bytes>) -> Result<(), NoMem>
    ensures { OnOk result (state.new ≡ with_shelf line files.items state.old) }
{
    if files.is_empty() {
        return Ok(());
    }
    state.place(casebook(alloc)?, Node::Dir)?;
    state.place(shelf_directory(alloc, line)?, Node::Dir)?;
    for (before, bytes) in files.into_iter().enumerate() {
        state.place(shelf_path(alloc, line, before + 1)?, Node::File(bytes))?;
    }
    Ok(())
}

/// Returns a state with the shelves of the lines that were seen from there on.
pub(crate) fn with_shelves(alloc: Global, first: &State, lines: &[SeenLine]) -> Result<State, NoMem>
    requires { length lines.now < 2 ^ 32 }
    ensures { IfOk result (λ state. state ≡ with_shelves 1 lines.now first.now first.now) }
{
    let mut state = first.copy()?;
    let mut now = first.copy()?;
    let mut line = 0_u32;
    for seen in lines {
        line += 1;
        put_shelf(
            alloc,
            &mut state,
            line,
            shelf_of(alloc, &now, &seen.effect)?,
        )?;
        seen.effect.make(alloc, &mut now)?;
    }
    Ok(state)
}
