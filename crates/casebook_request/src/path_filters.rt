//! Paths that lines are asked for by.
use retro_tree::Path;

/// A path that an option names.
#[derive(Drop)]
pub struct NamedPath {
    /// The path.
    pub path: Path,
    /// Whether the paths below it count too.
    pub below: bool,
}

/// What each line that is shown read and wrote. A path that isn't given is `None`.
#[derive(Drop)]
pub struct PathFilters {
    /// The line read such a path.
    pub reads: Option<NamedPath>,
    /// The line wrote to such a path.
    pub writes: Option<NamedPath>,
    /// The line read such a path or wrote to it.
    pub touches: Option<NamedPath>,
}
