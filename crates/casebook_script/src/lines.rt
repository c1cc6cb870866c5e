//! Reads the table of lines.
ghost use Rattle.std.specs.Prelude.{◌+◌, [], map};
ghost use Rattle.casebook_script.specs.Lines.{line_of, line_of_cells, line_step, lines_in};
ghost use Rattle.casebook_script.specs.Reads.{Reads};
ghost use Rattle.casebook_script.specs.Rows.{at_row};
ghost use Rattle.casebook_script.specs.Steps.{in_turn};
ghost use Rattle.casebook_script.specs.declared.fault.Table.TheVariants as tables;
ghost use Rattle.casebook_script.specs.inner.RowReads.{ReadsRow, row_view};

use crate::cells::{cells_of, number_of};
use crate::fault::{RowFault, Table, TableFault};
use crate::row_error::{RowError, or_bad_row};
use crate::table_row::{TableRow, rows_in};
use retro_keep::ScriptLine;
use retro_path::Text;
use retro_tree::State;
use std::alloc::Global;

/// The most lines: each has a number of 32 bits, and the first number is 1.
const MOST_LINES: usize = 0xffff_ffff;

/// Reads a line from its cells. `count` lines precede it.
fn line_of_cells(sessions: &State, count: usize, cells: &[Text]) -> Result<ScriptLine, RowError>
    ensures { ReadsRow (λ line. line) result
        (line_of_cells sessions.now.sessions (count + 1) (map (λ cell. cell) cells.now)) }
{
    let [session, text] = cells else {
        return Err(RowError::Fault(RowFault::Cells));
    };
    let Some(sid) = number_of(session.as_str()) else {
        return Err(RowError::Fault(RowFault::Number));
    };
    if !sessions.has_session(sid) {
        return Err(RowError::Fault(RowFault::UnknownSession));
    }
    if count >= MOST_LINES {
        return Err(RowError::Fault(RowFault::TooManyLines));
    }
    Ok(ScriptLine {
        number: count as u32 + 1,
        sid,
        text: text.copy()?,
    })
}

/// Reads a line from its row. `count` lines precede it.
#[tactic(auto, unfolding(crate::specs::Lines::line_of))]
fn line_of(alloc: Global, sessions: &State, count: usize, row: &str) -> Result<ScriptLine, RowError>
    ensures { ReadsRow (λ line. line) result
        (line_of sessions.now.sessions (count + 1) row.now) }
{
    let cells = cells_of(alloc, row)?;
    line_of_cells(sessions, count, cells.as_slice())
}

/// Reads a line from its row, or returns the fault of the row. `count` lines precede it.
fn line_at(
    alloc: Global,
    sessions: &State,
    count: usize,
    row: &TableRow<'_>,
) -> Result<ScriptLine, TableFault>
    ensures { Reads (λ line. line) result (at_row tables.Lines row.now.place
        (line_of sessions.now.sessions (count + 1) row.now.text.now)) }
{
    or_bad_row(
        Table::Lines,
        row.place,
        line_of(alloc, sessions, count, row.text),
    )
}

/// Reads the lines of rows.
fn lines_of(
    alloc: Global,
    sessions: &State,
    rows: &[TableRow<'_>],
) -> Result<Vec<ScriptLine>, TableFault>
    ensures { Reads (λ lines. lines.items) result
        (in_turn (line_step sessions.now.sessions) [] (map row_view rows.now)) }
{
    let mut lines = Vec::new(alloc);
    for row in rows {
        let line = line_at(alloc, sessions, lines.len(), row)?;
        lines.push(line)?;
    }
    Ok(lines)
}

/// Returns the lines of a table, whose sessions are those of a state.
#[tactic(auto, unfolding(crate::specs::Lines::lines_in))]
pub(crate) fn lines_in(
    alloc: Global,
    sessions: &State,
    bytes: &[u8],
) -> Result<Vec<ScriptLine>, TableFault>
    ensures { Reads (λ lines. lines.items) result
        (lines_in sessions.now.sessions bytes.now) }
{
    let rows = rows_in(alloc, Table::Lines, bytes)?;
    lines_of(alloc, sessions, rows.as_slice())
}
