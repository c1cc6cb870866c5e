//! Writes to paths.
use retro_tree::Path;

/// How a line writes to a path.
#[derive(Clone, Copy, Debug, PartialEq, Eq)]
pub enum WriteKind {
    /// It puts a file or a directory there.
    Put,
    /// It appends bytes to a file.
    Append,
    /// It removes what is there.
    Remove,
}

/// A write to a path.
#[derive(Drop)]
pub struct PathWrite {
    /// How the path is written to.
    pub kind: WriteKind,
    /// The path.
    pub path: Path,
}
