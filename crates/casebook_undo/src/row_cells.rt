//! Reads rows.
ghost use Rattle.std.specs.Prelude.{map, ok_or};
ghost use Rattle.serde_json.specs.View.{view};
ghost use Rattle.casebook_undo.specs.Cells.{row_cells, row_in};
ghost use Rattle.casebook_undo.specs.Reading.{rows_from};
ghost use Rattle.casebook_undo.specs.declared.undo_fault.UndoFault.TheVariants.{BadRow};
ghost use Rattle.casebook_undo.specs.inner.Faults.{Reads, ReadsCell};

use crate::cell_fault::{CellFault, or_fault};
use crate::node_cells::{cells_in, node_in};
use crate::path_cell::path_in;
use crate::undo_fault::UndoFault;
use casebook_folder::Row;
use serde_json::Value;
use std::alloc::Global;

/// Reads a row from its cells.
fn row_cells(alloc: Global, cells: &[Value]) -> Result<Row, CellFault>
    ensures { ReadsCell result (row_cells (map view cells.now)) }
{
    let [path, before, after] = cells else {
        return Err(CellFault::WrongShape);
    };
    let path = path_in(alloc, path)?;
    let before = node_in(alloc, before)?;
    let after = node_in(alloc, after)?;
    Ok(Row {
        path,
        before,
        after,
    })
}

/// Reads a row: `[path,before,after]`.
#[tactic(auto, unfolding(crate::specs::Cells::row_in))]
fn row_in(alloc: Global, value: &Value) -> Result<Row, CellFault>
    ensures { ReadsCell result (row_in (view value.now)) }
{
    match cells_in(value) {
        Some(cells) => row_cells(alloc, cells),
        None => Err(CellFault::WrongShape),
    }
}

/// Reads the row at a place.
fn row_at(alloc: Global, place: usize, value: &Value) -> Result<Row, UndoFault>
    ensures { Reads (λ row. row) result (ok_or (row_in (view value.now)) (BadRow place)) }
{
    or_fault(UndoFault::BadRow(place), row_in(alloc, value))
}

/// Reads rows.
pub(crate) fn rows_in(alloc: Global, cells: &[Value]) -> Result<Vec<Row>, UndoFault>
    ensures { Reads (λ rows. rows.items) result (rows_from 1 (map view cells.now)) }
{
    let mut rows = Vec::new(alloc);
    for cell in cells {
        let row = row_at(alloc, rows.len() + 1, cell)?;
        rows.push(row)?;
    }
    Ok(rows)
}
