//! Notes.
use crate::content::Content;
use casebook_watch::{FileTime, SightChange};
use retro_path::Path;

/// What a look at the watched folders says of a path.
#[derive(Drop)]
pub enum Note {
    /// Its sight is new or differs, or nothing is there any more.
    Sight(SightChange),
    /// What is in the file or the link.
    Holds(Holds),
    /// The recorder read it itself.
    Looked(Looked),
}

/// What is in a file or a link.
#[derive(Drop)]
pub struct Holds {
    /// The path.
    pub path: Path,
    /// What is in it.
    pub content: Content,
}

/// The recorder read a file or listed a directory itself. This isn't a reading of anybody else.
#[derive(Drop)]
pub struct Looked {
    /// The path.
    pub path: Path,
    /// The time of its last reading, as it is since then.
    pub read: FileTime,
}
