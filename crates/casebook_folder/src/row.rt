//! Rows of a plan.
ghost use Rattle.std.specs.Prelude.{◌≡◌, IfOk};
ghost use Rattle.casebook_folder.specs.Found as Founds;
ghost use Rattle.casebook_folder.specs.Rows as Rows;

use crate::NoMem;
use crate::found::Found;
use retro_path::Path;

/// A path of a folder that is to hold something else.
#[derive(Drop)]
pub struct Row {
    /// The path.
    pub path: Path,
    /// What it holds.
    pub before: Found,
    /// What it is to hold.
    pub after: Found,
}

impl Row {
    /// Returns a copy.
    pub fn copy(&self) -> Result<Row, NoMem>
        ensures { IfOk result (λ copy. copy ≡ self.now) }
    {
        Ok(Row {
            path: self.path.copy()?,
            before: self.before.copy()?,
            after: self.after.copy()?,
        })
    }

    /// Returns whether the path is emptied before anything is written: it is to hold nothing, or
    /// its kind changes.
    pub(crate) fn clears(&self) -> bool
        ensures { result ≡ Rows.clears self.now }
    {
        self.after.is_missing() || changes_kind(&self.before, &self.after)
    }
}

/// Returns whether a directory comes in the place of a file, or a file in the place of a directory.
fn changes_kind(before: &Found, after: &Found) -> bool
    ensures { result ≡ Founds.changes_kind before.now after.now }
{
    match (before, after) {
        (Found::Dir(_), Found::File(_, _)) | (Found::File(_, _), Found::Dir(_)) => true,
        _ => false,
    }
}
