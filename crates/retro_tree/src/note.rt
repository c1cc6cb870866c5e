//! Notes.
ghost use Rattle.std.specs.Prelude.{◌≡◌, ◌↔◌, IfOk, IsTrue};

use crate::answer::Answer;
use crate::ask::Ask;
use crate::change::Change;
use retro_path::NoMem;

/// One step of a trace of reads and writes: a query with its answer, or a change.
#[derive(Drop, PartialEq, Eq)]
pub enum Note {
    /// A query and its answer.
    Asked(Ask, Answer),
    /// A change.
    Made(Change),
}

impl Note {
    /// Returns a copy.
    pub fn copy(&self) -> Result<Note, NoMem>
        ensures { IfOk result (λ copy. copy ≡ self.now) }
    {
        match self {
            Note::Asked(ask, answer) => Ok(Note::Asked(ask.copy()?, answer.copy()?)),
            Note::Made(change) => Ok(Note::Made(change.copy()?)),
        }
    }

    /// Returns whether this is the same note as another.
    pub fn is_same(&self, other: &Note) -> bool
        ensures { IsTrue result ↔ (self.now ≡ other.now) }
    {
        match (self, other) {
            (Note::Asked(ask, x), Note::Asked(other_ask, y)) => {
                ask.is_same(other_ask) && x.is_same(y)
            }
            (Note::Made(x), Note::Made(y)) => x.is_same(y),
            _ => false,
        }
    }
}
