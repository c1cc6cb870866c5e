//! Rows of the file `lines`.
use crate::note::Note;
use casebook_record::Record;

/// What a row of the file `lines` says.
#[derive(Drop)]
pub enum Item {
    /// A note of the record that follows.
    Note(Note),
    /// A record.
    Record(Record),
}
