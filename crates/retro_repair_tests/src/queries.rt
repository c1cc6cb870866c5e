//! Queries of a history, with fields and answers as the texts of rows.
use retro_history::History;
use retro_rows::{cell, fail, path, text, value_text};
use retro_tree::{Cell, Listing, NoMem, Overlay, Path, Text, User, Value};
use std::alloc::Global;
use std::collections::BTreeSet;
use std::test::Fail;

/// Appends a number after a space, or alone as the first one.
fn push_number(alloc: Global, out: &mut String, number: u32) -> Result<(), NoMem> {
    if !out.is_empty() {
        out.push_str(" ")?;
    }
    out.push_str(&format!(in alloc; "{number}")?)
}

/// Returns numbers as a text.
fn numbers_text(alloc: Global, numbers: &[u32]) -> Result<String, NoMem> {
    let mut out = String::new(alloc);
    for number in numbers {
        push_number(alloc, &mut out, *number)?;
    }
    Ok(out)
}

/// Returns the number of a line as a text, or `none`.
fn line_text(alloc: Global, number: Option<u32>) -> Result<String, NoMem> {
    match number {
        Some(number) => format!(in alloc; "{number}"),
        None => text(alloc, "none"),
    }
}

/// Returns a checkpoint and the value that is rolled back to from there, as a text.
fn rolled_text(alloc: Global, from: u32, value: &Value) -> Result<String, NoMem> {
    let value = value_text(alloc, value)?;
    format!(in alloc; "{from} {value}")
}

/// Returns the value of a cell before a line, if rolling back to it gives the same.
fn cell_value(
    alloc: Global,
    history: &History<'_>,
    cell: &Cell,
    number: u32,
) -> Result<String, NoMem> {
    let value = history.value_at(alloc, cell, number)?;
    let rolled = history.rollback(alloc, cell, number)?;
    if rolled.value.is_same(&value) {
        rolled_text(alloc, rolled.from, &value)
    } else {
        text(alloc, "rolled back to another value")
    }
}

/// Returns the value of the cell with a name before a line.
fn value(alloc: Global, history: &History<'_>, name: &str, at: &str) -> Result<String, Fail> {
    let number = at.parse()?;
    let cell = cell(alloc, name)?;
    Ok(cell_value(alloc, history, &cell, number)?)
}

/// Returns the number and the home of a user, or `none`.
fn user_text(alloc: Global, user: &Option<User>) -> Result<String, NoMem> {
    match user {
        Some(user) => format!(in alloc; "{} {}", user.number, user.home.as_str()),
        None => text(alloc, "none"),
    }
}

/// Returns the number and the home of a user before a line, or `none`.
fn entry_text(
    alloc: Global,
    history: &History<'_>,
    name: &Text,
    number: u32,
) -> Result<String, NoMem> {
    let user = history.entry_at(alloc, name, number)?;
    user_text(alloc, &user)
}

/// Returns the number and the home of the user with a name before a line, or `none`.
fn entry(alloc: Global, history: &History<'_>, name: &str, at: &str) -> Result<String, Fail> {
    let number = at.parse()?;
    let name = Text::of(text(alloc, name)?);
    Ok(entry_text(alloc, history, &name, number)?)
}

/// Returns the names of a listing, with spaces between.
fn listing_text(alloc: Global, listing: &Listing) -> Result<String, NoMem> {
    let mut out = String::new(alloc);
    for name in listing.names() {
        if !out.is_empty() {
            out.push_str(" ")?;
        }
        out.push_str(name.as_str())?;
    }
    Ok(out)
}

/// Returns the names in a directory before a line, or `none`.
fn names_at(
    alloc: Global,
    history: &History<'_>,
    path: &Path,
    number: u32,
) -> Result<String, NoMem> {
    match history.names_at(alloc, path, number)? {
        Some(listing) => listing_text(alloc, &listing),
        None => text(alloc, "none"),
    }
}

/// Returns the names in the directory that a text names before a line, or `none`.
fn names(alloc: Global, history: &History<'_>, of: &str, at: &str) -> Result<String, Fail> {
    let number = at.parse()?;
    let path = path(alloc, of)?;
    Ok(names_at(alloc, history, &path, number)?)
}

/// Returns the set of one cell.
fn set_of(alloc: Global, cell: &Cell) -> Result<BTreeSet<Cell>, NoMem> {
    let mut cells = BTreeSet::new(alloc);
    cells.insert(cell.copy()?)?;
    Ok(cells)
}

/// Returns an overlay of one cell, whatever its value.
fn overlay_of(alloc: Global, cell: &Cell) -> Result<Overlay, NoMem> {
    let mut overlay = Overlay::new(alloc);
    overlay.insert(cell.copy()?, Value::Status(0))?;
    Ok(overlay)
}

/// Returns the next line above a number that meets the set of a cell.
fn met(
    alloc: Global,
    history: &History<'_>,
    cell: &Cell,
    after: u32,
) -> Result<Option<u32>, NoMem> {
    let cells = set_of(alloc, cell)?;
    history.next_meeting(alloc, &cells, after)
}

/// Returns the next line above a number that meets an overlay of a cell.
fn met_in(
    alloc: Global,
    history: &History<'_>,
    cell: &Cell,
    after: u32,
) -> Result<Option<u32>, NoMem> {
    let overlay = overlay_of(alloc, cell)?;
    history.next_meeting_in(alloc, &overlay, after)
}

/// Returns the next line above a number that reads or writes a cell.
pub fn next_meeting(
    alloc: Global,
    history: &History<'_>,
    cell: &Cell,
    after: u32,
) -> Result<Option<u32>, Fail> {
    let met = met(alloc, history, cell, after)?;
    if met == met_in(alloc, history, cell, after)? {
        Ok(met)
    } else {
        fail("the overlay is met by another line")
    }
}

/// Returns the next line above a number that reads or writes the cell with a name, or `none`.
fn next(alloc: Global, history: &History<'_>, name: &str, after: &str) -> Result<String, Fail> {
    let after = after.parse()?;
    let met = next_meeting(alloc, history, &cell(alloc, name)?, after)?;
    Ok(line_text(alloc, met)?)
}

/// Returns the lines that write a cell.
fn writers(alloc: Global, history: &History<'_>, cell: &Cell) -> Result<String, NoMem> {
    let numbers = history.writers(alloc, cell)?;
    if numbers.as_slice() == history.written_by(cell) {
        numbers_text(alloc, numbers.as_slice())
    } else {
        text(alloc, "written by other lines")
    }
}

/// Returns the lines that read a cell.
fn readers(alloc: Global, history: &History<'_>, cell: &Cell) -> Result<String, NoMem> {
    let numbers = history.readers(alloc, cell)?;
    numbers_text(alloc, numbers.as_slice())
}

/// Returns the checkpoints of a cell.
fn checkpoints(alloc: Global, history: &History<'_>, cell: &Cell) -> Result<String, NoMem> {
    let numbers = history.checkpoints(alloc, cell)?;
    numbers_text(alloc, numbers.as_slice())
}

/// Returns the answer to a query about a cell or a directory at a number.
fn numbered(
    alloc: Global,
    history: &History<'_>,
    call: &str,
    of: &str,
    at: &str,
) -> Result<String, Fail> {
    match call {
        "value" => value(alloc, history, of, at),
        "entry" => entry(alloc, history, of, at),
        "names" => names(alloc, history, of, at),
        "next" => next(alloc, history, of, at),
        _ => fail("no such call"),
    }
}

/// Returns the answer to a query about a cell.
fn of_cell(alloc: Global, history: &History<'_>, call: &str, cell: &Cell) -> Result<String, NoMem> {
    match call {
        "writers" => writers(alloc, history, cell),
        "readers" => readers(alloc, history, cell),
        "checkpoints" => checkpoints(alloc, history, cell),
        _ => text(alloc, "no such call"),
    }
}

/// Returns the lines that list the directory that a text names.
fn listed(alloc: Global, history: &History<'_>, of: &str) -> Result<String, Fail> {
    let path = path(alloc, of)?;
    Ok(numbers_text(alloc, history.listed_by(&path))?)
}

/// Returns the answer to a query about a cell or a directory.
fn plain(alloc: Global, history: &History<'_>, call: &str, of: &str) -> Result<String, Fail> {
    if call == "listed" {
        return listed(alloc, history, of);
    }
    let cell = cell(alloc, of)?;
    Ok(of_cell(alloc, history, call, &cell)?)
}

/// Returns the answer to the query of a row.
pub fn answer(
    alloc: Global,
    history: &History<'_>,
    call: &str,
    given: &[String],
) -> Result<String, Fail> {
    match given {
        [of, at] => numbered(alloc, history, call, of, at),
        [of] => plain(alloc, history, call, of),
        _ => fail("no such call"),
    }
}
