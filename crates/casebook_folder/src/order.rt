//! Rows in order.
ghost use Rattle.std.specs.Prelude.{◌≡◌, ◌↔◌, IsTrue, map};
ghost use Rattle.casebook_folder.specs.Plans.{row_of};
ghost use Rattle.casebook_folder.specs.Rows.{AreInOrder};
ghost use Rattle.casebook_folder.specs.inner.Order as Order;

use crate::planned_row::PlannedRow;
use crate::row::Row;

/// Returns whether rows are in order of their paths, and no path has two.
#[tactic(auto, using(crate::proofs::Orders::in_order))]
pub(crate) fn are_in_order(rows: &[Row]) -> bool
    ensures { IsTrue result ↔ AreInOrder rows.now }
{
    rises(rows)
}

/// Returns whether each row is before the next one.
fn rises(rows: &[Row]) -> bool
    ensures { result ≡ Order.rises rows.now }
{
    let mut rest = rows;
    while let [first, more @ ..] = rest {
        if !is_before(first, more) {
            return false;
        }
        rest = more;
    }
    true
}

/// Returns whether a row is before the first of others.
fn is_before(row: &Row, rows: &[Row]) -> bool
    ensures { result ≡ Order.is_before row.now rows.now }
{
    match rows {
        [next, ..] => row.path.cmp(&next.path).is_lt(),
        [] => true,
    }
}

/// Returns whether a plan's rows are in order of their paths, and no path has two.
#[tactic(auto, using(crate::proofs::Orders::in_order))]
pub(crate) fn is_plan_in_order(plan: &[PlannedRow]) -> bool
    ensures { IsTrue result ↔ AreInOrder (map row_of plan.now) }
{
    plan_rises(plan)
}

/// Returns whether each row of a plan is before the next one.
fn plan_rises(plan: &[PlannedRow]) -> bool
    ensures { result ≡ Order.rises (map row_of plan.now) }
{
    let mut rest = plan;
    while let [first, more @ ..] = rest {
        if !is_planned_before(first, more) {
            return false;
        }
        rest = more;
    }
    true
}

/// Returns whether a planned row is before the first of others.
fn is_planned_before(row: &PlannedRow, rows: &[PlannedRow]) -> bool
    ensures { result ≡ Order.is_before (row_of row.now) (map row_of rows.now) }
{
    match rows {
        [next, ..] => row.change.path.cmp(&next.change.path).is_lt(),
        [] => true,
    }
}
