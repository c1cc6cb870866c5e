//! Edits of lines.
ghost use Rattle.std.specs.Prelude.{◌≡◌, IfOk};
ghost use Rattle.retro_keep.specs.Edit.{edit_eq, edited_number};

use retro_tree::{NoMem, Text};

/// An edit of a line.
#[derive(Drop)]
pub enum Edit {
    /// Leaves out the line with this number.
    Cancel(u32),
    /// Replaces the text of the line with this number. The line keeps its number and its session.
    Replace(u32, Text),
}

impl Edit {
    /// Returns the number of the edited line.
    pub fn number(&self) -> u32
        ensures { result ≡ edited_number self.now }
    {
        match self {
            Edit::Cancel(number) => *number,
            Edit::Replace(number, _) => *number,
        }
    }

    /// Returns a copy.
    pub fn copy(&self) -> Result<Edit, NoMem>
        ensures { IfOk result (λ copy. copy ≡ self.now) }
    {
        match self {
            Edit::Cancel(number) => Ok(Edit::Cancel(*number)),
            Edit::Replace(number, text) => Ok(Edit::Replace(*number, text.copy()?)),
        }
    }

    /// Returns whether two edits are equal.
    pub(crate) fn is_equal(&self, other: &Edit) -> bool
        ensures { result ≡ edit_eq self.now other.now }
    {
        match (self, other) {
            (Edit::Cancel(one), Edit::Cancel(two)) => one == two,
            (Edit::Replace(one, old), Edit::Replace(two, new)) => one == two && old == new,
            _ => false,
        }
    }
}
