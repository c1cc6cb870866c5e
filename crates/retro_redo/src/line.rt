//! The line whose turn it is in a repair.
ghost use Rattle.std.specs.Prelude.{◌≡◌, IsSome, MatchBool, None};
ghost use Rattle.std.specs.Option.{option_copied, unwrap_or};
ghost use Rattle.retro_keep.specs.Edit.{text_run};

use retro_keep::{Edit, Noted};
use retro_tree::Text;

/// A line whose turn it is in a repair.
#[derive(Clone, Copy)]
pub struct Line<'a, 'e> {
    /// The line's number.
    pub number: u32,
    /// The line as it was recorded.
    pub noted: &'a Noted,
    /// How the line is edited, or `None` if it isn't.
    pub edit: Option<&'e Edit>,
    /// Whether the line is met: whether its text is replaced, or it isn't edited and reads or
    /// writes a cell in which the recorded and the repaired state differ.
    pub is_met: bool,
}

impl Line<'_, '_> {
    /// Returns whether the line is cancelled, so that it runs no text.
    pub(crate) fn is_cancelled(&self) -> bool
        ensures { MatchBool result
            (text_run (option_copied self.now.edit) self.now.noted.now.text ≡ None)
            (IsSome (text_run (option_copied self.now.edit) self.now.noted.now.text)) }
    {
        match self.edit {
            Some(Edit::Cancel(_)) => true,
            Some(Edit::Replace(_, _)) | None => false,
        }
    }

    /// Returns the text of a new run of the line: its new text if its text is replaced, and its own
    /// text if not.
    pub(crate) fn text(&self) -> &Text
        ensures { result.now
            ≡ unwrap_or (text_run (option_copied self.now.edit) self.now.noted.now.text)
            self.now.noted.now.text }
    {
        match self.edit {
            Some(Edit::Replace(_, new)) => new,
            Some(Edit::Cancel(_)) | None => &self.noted.text,
        }
    }
}
