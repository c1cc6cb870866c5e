//! How files are opened for output.

/// What opening does to a file.
#[derive(Drop, Clone, Copy, Debug, PartialEq, Eq)]
pub enum Mode {
    /// Empties it (`>`).
    Truncate,
    /// Leaves it unchanged (`>>`).
    Append,
}
