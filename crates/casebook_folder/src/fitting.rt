//! Rows that were kept, compared with a plan. Both are in order of their paths, and the row of a
//! path is found by binary search.
ghost use Rattle.std.specs.Prelude.{◌≡◌, ◌↔◌, IsTrue, map};
ghost use Rattle.std.specs.Option.{is_some, option_copied};
ghost use Rattle.std.specs.List.{list_all};
ghost use Rattle.casebook_folder.specs.Plans as Plans;
ghost use Rattle.casebook_folder.specs.Rows.{AreInOrder, row_at};

use crate::change::Change;
use crate::planned_row::PlannedRow;
use crate::row::Row;
use retro_path::Path;

/// Returns whether kept rows fit a plan: each is that of one of the plan's changes, by what it says
/// that was there, and the folder is done with all other changes.
pub(crate) fn fit(plan: &[PlannedRow], rows: &[Row]) -> bool
    requires plan { AreInOrder (map Plans.row_of plan.now) }
    requires rows { AreInOrder rows.now }
    ensures { IsTrue result ↔ Plans.Fit plan.now rows.now }
{
    all_fit(plan, rows) && are_settled(plan, rows)
}

/// Returns whether each row is that of a change.
fn all_fit(plan: &[PlannedRow], rows: &[Row]) -> bool
    requires { AreInOrder (map Plans.row_of plan.now) }
    ensures { result ≡ list_all (Plans.row_fits plan.now) rows.now }
{
    rows.iter().all(|row| row_fits(plan, row))
}

/// Returns whether a row is that of a change.
fn row_fits(plan: &[PlannedRow], row: &Row) -> bool
    requires { AreInOrder (map Plans.row_of plan.now) }
    ensures { result ≡ Plans.row_fits plan.now row.now }
{
    match change_at(plan, &row.path) {
        Some(change) => {
            change.state(&row.before, false).is_ready() && change.is_wanted(&row.before, &row.after)
        }
        None => false,
    }
}

/// Returns the change that a plan has for a path, or `None` if it has none.
fn change_at<'a>(plan: &'a [PlannedRow], path: &Path) -> Option<&'a Change>
    requires { AreInOrder (map Plans.row_of plan.now) }
    ensures { option_copied result ≡ Plans.change_at path.now plan.now }
{
    match plan.binary_search_by(|row| row.change.path.cmp(path)) {
        Ok(index) => Some(&plan[index].change),
        Err(_) => None,
    }
}

/// Returns whether the folder is done with each change that no row is of.
fn are_settled(plan: &[PlannedRow], rows: &[Row]) -> bool
    requires { AreInOrder rows.now }
    ensures { result ≡ list_all (Plans.is_settled rows.now) plan.now }
{
    plan.iter().all(|planned| planned.state.is_done() || has_row(rows, &planned.change.path))
}

/// Returns whether a row is of a path.
fn has_row(rows: &[Row], path: &Path) -> bool
    requires { AreInOrder rows.now }
    ensures { result ≡ is_some (row_at path.now rows.now) }
{
    rows.binary_search_by(|row| row.path.cmp(path)).is_ok()
}
