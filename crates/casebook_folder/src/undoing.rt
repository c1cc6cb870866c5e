//! Rows that lead back.
ghost use Rattle.std.specs.Prelude.{◌≡◌, IfOk};
ghost use Rattle.casebook_folder.specs.Remaining as Remaining;

use crate::NoMem;
use crate::row::Row;
use crate::rows::Rows;
use std::alloc::Global;

/// Returns the rows that undo others.
#[tactic(auto, using(crate::proofs::Orders::undone_in_order))]
pub fn undo(alloc: Global, rows: &Rows) -> Result<Rows, NoMem>
    ensures { IfOk result (λ undone. undone.items.items ≡ Remaining.undo rows.now.items.items) }
{
    let items = swapped_rows(alloc, rows.items.as_slice())?;
    Ok(Rows { items })
}

/// Returns rows with what each holds and is to hold exchanged.
fn swapped_rows(alloc: Global, rows: &[Row]) -> Result<Vec<Row>, NoMem>
    ensures { IfOk result (λ swapped. swapped.items ≡ Remaining.undo rows.now) }
{
    let mut swapped = Vec::new(alloc);
    for row in rows {
        let path = row.path.copy()?;
        let before = row.after.copy()?;
        let after = row.before.copy()?;
        swapped.push(Row {
            path,
            before,
            after,
        })?;
    }
    Ok(swapped)
}
