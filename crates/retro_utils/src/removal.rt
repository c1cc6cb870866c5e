//! The options of `rm`.

/// How `rm` removes.
#[derive(Clone, Copy, Debug, PartialEq, Eq)]
pub(crate) struct Removal {
    /// A missing file isn't a fault (`-f`).
    pub forced: bool,
    /// Directories are removed with everything below them (`-r`, `-R`).
    pub recursive: bool,
}
