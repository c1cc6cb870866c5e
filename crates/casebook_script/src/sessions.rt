//! Reads the table of sessions.
ghost use Rattle.std.specs.Prelude.{map};
ghost use Rattle.std.specs.FinMap.{empty, from_entries};
ghost use Rattle.retro_tree.specs.Order.{text_cmp};
ghost use Rattle.casebook_script.specs.Reads.{Reads};
ghost use Rattle.casebook_script.specs.Sessions.{session_of, session_of_cells, session_step};
ghost use Rattle.casebook_script.specs.Sessions.{sessions_in, var_of, with_session, with_var};
ghost use Rattle.casebook_script.specs.Steps.{in_turn};
ghost use Rattle.casebook_script.specs.inner.RowReads.{ReadsRow, row_view};
ghost use Rattle.casebook_script.specs.inner.Views.{session_view, vars_view};

use crate::cells::{cells_of, cut_at, number_of};
use crate::fault::{RowFault, Table, TableFault};
use crate::paths::path_of_text;
use crate::row_error::{RowError, or_bad_row};
use crate::table_row::{TableRow, rows_in};
use retro_path::{Path, Text, VarName};
use retro_tree::{State, VALUE_LIMIT};
use std::alloc::Global;
use std::collections::BTreeMap;

/// A session in a row.
#[derive(Drop)]
pub(crate) struct SessionRow {
    /// Its number.
    pub(crate) sid: u32,
    /// Its working directory.
    pub(crate) cwd: Path,
    /// Its variables, by their names.
    pub(crate) vars: BTreeMap<VarName, Text>,
}

/// Reads a variable: `NAME=VALUE`.
#[tactic(auto, unfolding(crate::specs::Sessions::var_of))]
fn var_of(alloc: Global, cell: &str) -> Result<(VarName, Text), RowError>
    ensures { ReadsRow (λ var. var) result (var_of cell.now) }
{
    let Some((name, value)) = cut_at('=', cell) else {
        return Err(RowError::Fault(RowFault::Variable));
    };
    let Some(name) = VarName::of(alloc, name)? else {
        return Err(RowError::Fault(RowFault::Variable));
    };
    if value.len() > VALUE_LIMIT {
        return Err(RowError::Fault(RowFault::TooLong));
    }
    Ok((name, Text::of(String::from_str(alloc, value)?)))
}

/// Returns variables with the one of a cell added.
fn with_var(
    alloc: Global,
    vars: BTreeMap<VarName, Text>,
    cell: &str,
) -> Result<BTreeMap<VarName, Text>, RowError>
    ensures { ReadsRow vars_view result (with_var (vars_view vars) cell.now) }
{
    let (name, value) = var_of(alloc, cell)?;
    let mut vars = vars;
    if vars.contains_key(&name) {
        return Err(RowError::Fault(RowFault::VariableTwice));
    }
    vars.insert(name, value)?;
    Ok(vars)
}

/// Returns the variables of cells.
fn vars_of(alloc: Global, cells: &[Text]) -> Result<BTreeMap<VarName, Text>, RowError>
    ensures { ReadsRow vars_view result
        (in_turn with_var empty (map (λ cell. cell) cells.now)) }
{
    let mut vars = BTreeMap::new(alloc);
    for cell in cells {
        vars = with_var(alloc, vars, cell.as_str())?;
    }
    Ok(vars)
}

/// Reads a session from its cells.
fn session_of_cells(alloc: Global, cells: &[Text]) -> Result<SessionRow, RowError>
    ensures { ReadsRow session_view result (session_of_cells (map (λ cell. cell) cells.now)) }
{
    let [number, directory, variables @ ..] = cells else {
        return Err(RowError::Fault(RowFault::Cells));
    };
    let Some(sid) = number_of(number.as_str()) else {
        return Err(RowError::Fault(RowFault::Number));
    };
    let Some(cwd) = path_of_text(alloc, directory.as_str())? else {
        return Err(RowError::Fault(RowFault::Directory));
    };
    let vars = vars_of(alloc, variables)?;
    Ok(SessionRow { sid, cwd, vars })
}

/// Reads a session from its row.
#[tactic(auto, unfolding(crate::specs::Sessions::session_of))]
fn session_of(alloc: Global, row: &str) -> Result<SessionRow, RowError>
    ensures { ReadsRow session_view result (session_of row.now) }
{
    let cells = cells_of(alloc, row)?;
    session_of_cells(alloc, cells.as_slice())
}

/// Returns a state with the session of a row added.
#[tactic(auto, unfolding(crate::specs::Sessions::with_session))]
fn with_session(alloc: Global, state: State, row: &str) -> Result<State, RowError>
    ensures { ReadsRow (λ s. s.sessions) result (with_session state.sessions row.now) }
{
    let SessionRow { sid, cwd, vars } = session_of(alloc, row)?;
    let mut state = state;
    if state.has_session(sid) {
        return Err(RowError::Fault(RowFault::SessionTwice));
    }
    state.add_session(sid, cwd, 0, vars)?;
    Ok(state)
}

/// Returns a state with the session of a row added, or the fault of the row.
fn with_row(alloc: Global, state: State, row: &TableRow<'_>) -> Result<State, TableFault>
    ensures { Reads (λ s. s.sessions) result (session_step state.sessions (row_view row.now)) }
{
    or_bad_row(
        Table::Sessions,
        row.place,
        with_session(alloc, state, row.text),
    )
}

/// Returns a state with the sessions of rows.
fn with_rows(alloc: Global, rows: &[TableRow<'_>]) -> Result<State, TableFault>
    ensures { Reads (λ s. s.sessions) result
        (in_turn session_step empty (map row_view rows.now)) }
{
    let mut state = State::empty(alloc)?;
    for row in rows {
        state = with_row(alloc, state, row)?;
    }
    Ok(state)
}

/// Returns a state with the sessions of a table.
#[tactic(auto, unfolding(crate::specs::Sessions::sessions_in))]
pub(crate) fn sessions_in(alloc: Global, bytes: &[u8]) -> Result<State, TableFault>
    ensures { Reads (λ s. s.sessions) result (sessions_in bytes.now) }
{
    let rows = rows_in(alloc, Table::Sessions, bytes)?;
    with_rows(alloc, rows.as_slice())
}
