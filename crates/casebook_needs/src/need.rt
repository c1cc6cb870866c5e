//! What a line depends on.
ghost use Rattle.std.specs.Prelude.{◌≡◌};
ghost use Rattle.casebook_needs.specs.Needs.{note_of};

use crate::source::Source;
use retro_tree::{Answer, Ask, Note};

/// A query on whose answer a line can depend.
#[derive(Drop)]
pub struct Need {
    /// The query.
    pub ask: Ask,
    /// The answer in the state in which the line began.
    pub answer: Answer,
    /// Where the need comes from.
    pub source: Source,
}

impl Need {
    /// Returns the query and its answer as a note.
    pub fn into_note(self) -> Note
        ensures { result ≡ note_of self }
    {
        Note::Asked(self.ask, self.answer)
    }
}
