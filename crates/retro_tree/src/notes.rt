//! Lists of notes.
ghost use Rattle.std.specs.Prelude.{◌≡◌, ◌↔◌, [], IfOk, IsTrue};

use crate::note::Note;
use retro_path::NoMem;
use std::alloc::Global;
use std::marker::Model;
use std::sync::Arc;

/// A trace of reads and writes with their values, in the order in which they happened.
///
/// Notes hold in a state if each query, asked after the changes noted before it, has the noted
/// answer. They never change, so copies share them.
#[derive(Drop)]
pub struct Notes {
    notes: Arc<Vec<Note>>,
}

impl Model for Notes {
    ghost use Rattle.std.specs.Prelude.{List};
    ghost use Rattle.std.specs.Arc.{arc_value};
    ghost use Rattle.retro_tree.specs.declared.note.Note.{Note};

    ghost Value = { List Note };

    ghost view = { λ a. (arc_value a.notes).items };
}

impl Notes {
    /// Returns an empty trace.
    pub fn new(alloc: Global) -> Result<Notes, NoMem>
        ensures { IfOk result (λ notes. notes ≡ []) }
    {
        Notes::of(alloc, Vec::new(alloc))
    }

    /// Makes notes of a vector. The vector isn't copied, and its unused capacity is freed.
    pub fn of(alloc: Global, notes: Vec<Note>) -> Result<Notes, NoMem>
        ensures { IfOk result (λ made. made ≡ notes.items) }
    {
        let mut notes = notes;
        notes.shrink_to_fit();
        Ok(Notes {
            notes: Arc::new(alloc, notes)?,
        })
    }

    /// Returns the notes as a slice.
    pub fn as_slice(&self) -> &[Note]
        ensures { result.now ≡ self.now }
    {
        self.notes.as_slice()
    }

    /// Returns a copy, which shares the notes. Takes no memory.
    pub fn copy(&self) -> Result<Notes, NoMem>
        ensures { IfOk result (λ copy. copy ≡ self.now) }
    {
        Ok(Notes {
            notes: Arc::try_clone(&self.notes)?,
        })
    }

    /// Returns whether these are the same notes as others, in the same order.
    pub fn is_same(&self, other: &Notes) -> bool
        ensures { IsTrue result ↔ (self.now ≡ other.now) }
    {
        let (one, two) = (self.as_slice(), other.as_slice());
        if one.len() != two.len() {
            return false;
        }
        for (index, note) in one.iter().enumerate() {
            if !note.is_same(&two[index]) {
                return false;
            }
        }
        true
    }
}
