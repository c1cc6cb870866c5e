//! Rows of lines that were typed between bounds.
ghost use Rattle.std.specs.Prelude.{◌≡◌, IfOk, map};
ghost use Rattle.std.specs.List.{filter};
ghost use Rattle.casebook_about.specs.Rows.{time_view};
ghost use Rattle.casebook_view.specs.Rows.{row_value};
ghost use Rattle.casebook_request.specs.Bounds.{is_typed};
ghost use Rattle.casebook_cli.specs.Typed.{row_of_number, typed};

use crate::NoMem;
use casebook_about::LineTime;
use casebook_request::{Bounds, TypedLines};
use casebook_view::LineRow;
use std::alloc::Global;

/// Returns the rows of these lines.
fn rows_between<'r>(
    alloc: Global,
    rows: Vec<LineRow<'r>>,
    lines: &TypedLines,
) -> Result<Vec<LineRow<'r>>, NoMem>
    ensures { IfOk result (λ kept. map row_value kept.items
        ≡ filter (row_of_number (is_typed lines.now)) (map row_value rows.entry.items)) }
{
    let mut kept = Vec::new(alloc);
    for row in rows {
        if lines.contains(row.number) {
            kept.push(row)?;
        }
    }
    Ok(kept)
}

/// Returns the rows of lines that were typed between bounds: all, if no bound is a time.
#[tactic(auto, unfolding(crate::specs::Typed::typed))]
pub(crate) fn typed_rows<'r>(
    alloc: Global,
    rows: Vec<LineRow<'r>>,
    times: &[LineTime],
    bounds: Bounds,
) -> Result<Vec<LineRow<'r>>, NoMem>
    ensures { IfOk result (λ kept. map row_value kept.items
        ≡ typed bounds (map time_view times.now) (map row_value rows.entry.items)) }
{
    if !bounds.has_times() {
        return Ok(rows);
    }
    let lines = TypedLines::of(alloc, times, bounds)?;
    rows_between(alloc, rows, &lines)
}
