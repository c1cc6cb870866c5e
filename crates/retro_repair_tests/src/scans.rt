//! Histories compared with a plain scan of the notes, and with states that are replayed from them.
use crate::queries::next_meeting;
use retro_history::History;
use retro_keep::{Noted, Recording};
use retro_rows::text;
use retro_tree::{Ask, Cell, Change, NoMem, Note, Notes, Path, State, Value, VarName, supports};
use std::alloc::Global;
use std::test::Fail;

/// Appends the cells of a path and of its parent.
fn push_path(alloc: Global, cells: &mut Vec<Cell>, path: &Path) -> Result<(), NoMem> {
    cells.push(Cell::At(path.parent(alloc)?))?;
    cells.push(Cell::At(path.copy()?))?;
    Ok(())
}

/// Appends the cell of a session's variable.
fn push_variable(cells: &mut Vec<Cell>, sid: u32, name: &VarName) -> Result<(), NoMem> {
    cells.push(Cell::Var(sid, name.copy()?))?;
    Ok(())
}

/// Appends the cell of a session's directory or status.
fn push_session(cells: &mut Vec<Cell>, cell: Cell) -> Result<(), NoMem> {
    cells.push(cell)?;
    Ok(())
}

/// Appends the cell that a change writes, and the parent of a path.
fn push_changed(alloc: Global, cells: &mut Vec<Cell>, change: &Change) -> Result<(), NoMem> {
    match change {
        Change::Put(path, _) | Change::Grow(path, _) => push_path(alloc, cells, path),
        Change::SetVar(sid, name, _) => push_variable(cells, *sid, name),
        Change::SetCwd(sid, _) => push_session(cells, Cell::Cwd(*sid)),
        Change::SetStatus(sid, _) => push_session(cells, Cell::Status(*sid)),
    }
}

/// Appends the cell that a query is about, and the parent of a path.
fn push_asked(alloc: Global, cells: &mut Vec<Cell>, ask: &Ask) -> Result<(), NoMem> {
    match ask {
        Ask::Kind(path) | Ask::Bytes(path) | Ask::Names(path) | Ask::CanWrite(path, _) => {
            push_path(alloc, cells, path)
        }
        Ask::VarOf(sid, name) => push_variable(cells, *sid, name),
        Ask::CwdOf(sid) => push_session(cells, Cell::Cwd(*sid)),
        Ask::StatusOf(sid) => push_session(cells, Cell::Status(*sid)),
        Ask::User(_) => push_path(alloc, cells, &Path::passwd(alloc)?),
    }
}

/// Appends the cells of notes.
fn push_cells(alloc: Global, cells: &mut Vec<Cell>, notes: &Notes) -> Result<(), NoMem> {
    for note in notes.as_slice() {
        match note {
            Note::Made(change) => push_changed(alloc, cells, change)?,
            Note::Asked(ask, _) => push_asked(alloc, cells, ask)?,
        }
    }
    Ok(())
}

/// Returns the cells of all notes.
fn cells_of(alloc: Global, lines: &[(u32, Noted)]) -> Result<Vec<Cell>, NoMem> {
    let mut cells = Vec::new(alloc);
    for line in lines {
        push_cells(alloc, &mut cells, &line.1.notes)?;
    }
    Ok(cells)
}

/// Returns whether a change writes a cell.
fn writes(change: &Change, cell: &Cell) -> bool {
    match (change, cell) {
        (Change::Put(path, _) | Change::Grow(path, _), Cell::At(at)) => path == at,
        (Change::SetVar(sid, name, _), Cell::Var(other, variable)) => {
            sid == other && name == variable
        }
        (Change::SetCwd(sid, _), Cell::Cwd(other)) => sid == other,
        (Change::SetStatus(sid, _), Cell::Status(other)) => sid == other,
        _ => false,
    }
}

/// Returns whether notes read or write a cell.
fn has(notes: &Notes, cell: &Cell) -> bool {
    for note in notes.as_slice() {
        let found = match note {
            Note::Asked(ask, _) => supports(ask, cell),
            Note::Made(change) => writes(change, cell),
        };
        if found {
            return true;
        }
    }
    false
}

/// Returns the first line above a number whose notes read or write a cell.
fn scanned(lines: &[(u32, Noted)], cell: &Cell, after: u32) -> Option<u32> {
    for line in lines {
        if line.0 > after && has(&line.1.notes, cell) {
            return Some(line.0);
        }
    }
    None
}

/// Makes the changes of notes to a state.
fn replay(alloc: Global, state: &mut State, notes: &Notes) -> Result<(), NoMem> {
    for note in notes.as_slice() {
        if let Note::Made(change) = note {
            state.apply(alloc, change)?;
        }
    }
    Ok(())
}

/// Returns the state that the notes of the lines below a number replay.
fn replayed(alloc: Global, recording: &Recording, number: u32) -> Result<State, NoMem> {
    let mut state = recording.first().copy()?;
    for line in recording.lines() {
        if line.0 < number {
            replay(alloc, &mut state, &line.1.notes)?;
        }
    }
    Ok(state)
}

/// Returns whether the next line that a history finds for a cell is the one that a scan finds.
fn finds_next(alloc: Global, history: &History<'_>, cell: &Cell, after: u32) -> Result<bool, Fail> {
    let wanted = scanned(history.recording().lines(), cell, after);
    Ok(next_meeting(alloc, history, cell, after)? == wanted)
}

/// Returns whether a history rolls a cell back to a value before a line.
fn is_rolled_back(
    alloc: Global,
    history: &History<'_>,
    cell: &Cell,
    number: u32,
    wanted: &Value,
) -> Result<bool, NoMem> {
    let rolled = history.rollback(alloc, cell, number)?;
    Ok(rolled.value.is_same(wanted))
}

/// Returns whether a history has the value of a state in a cell before a line.
fn has_value(
    alloc: Global,
    history: &History<'_>,
    state: &State,
    cell: &Cell,
    number: u32,
) -> Result<bool, NoMem> {
    let wanted = state.value(alloc, cell)?;
    Ok(
        history.value_at(alloc, cell, number)?.is_same(&wanted)
            && is_rolled_back(alloc, history, cell, number, &wanted)?,
    )
}

/// Returns how a history differs from a scan or a replayed state for a cell, at a number.
fn difference(
    alloc: Global,
    history: &History<'_>,
    state: &State,
    cell: &Cell,
    number: u32,
) -> Result<Option<&'static str>, Fail> {
    if !finds_next(alloc, history, cell, number)? {
        return Ok(Some("another line after"));
    }
    if !has_value(alloc, history, state, cell, number)? {
        return Ok(Some("another value before"));
    }
    Ok(None)
}

/// Returns how a history differs from scans or a replayed state for the first such cell, at a
/// number.
fn difference_in(
    alloc: Global,
    history: &History<'_>,
    cells: &[Cell],
    number: u32,
) -> Result<Option<&'static str>, Fail> {
    let state = replayed(alloc, history.recording(), number)?;
    for cell in cells {
        let found = difference(alloc, history, &state, cell, number)?;
        if found.is_some() {
            return Ok(found);
        }
    }
    Ok(None)
}

/// Returns how a history first differs from scans and replayed states, for the numbers from 0 to a
/// last one and all cells of the notes, or `same`.
pub fn first_difference(alloc: Global, history: &History<'_>, last: u32) -> Result<String, Fail> {
    let cells = cells_of(alloc, history.recording().lines())?;
    for number in 0..=last {
        if let Some(found) = difference_in(alloc, history, &cells, number)? {
            return Ok(format!(in alloc; "{found} {number}")?);
        }
    }
    Ok(text(alloc, "same")?)
}
