//! Rows of plans.
ghost use Rattle.std.specs.Prelude.{◌≡◌, IfOk};

use crate::NoMem;
use crate::change::Change;
use crate::found::Found;
use crate::row::Row;
use crate::state::State;

/// A change, and how the folder is to it.
#[derive(Drop)]
pub struct PlannedRow {
    /// The change.
    pub change: Change,
    /// What the folder holds at the path.
    pub before: Found,
    /// What the path is to hold.
    pub after: Found,
    /// How the folder is to the change.
    pub state: State,
}

impl PlannedRow {
    ghost use Rattle.casebook_folder.specs.Plans as Plans;

    /// Returns the row of the change.
    pub(crate) fn row(&self) -> Result<Row, NoMem>
        ensures { IfOk result (λ row. row ≡ Plans.row_of self.now) }
    {
        Ok(Row {
            path: self.change.path.copy()?,
            before: self.before.copy()?,
            after: self.after.copy()?,
        })
    }
}
