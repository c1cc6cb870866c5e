//! Kinds of nodes.
ghost use Rattle.std.specs.Prelude.{◌≡◌};
ghost use Rattle.retro_tree.specs.Node.{kind_grown};

/// The kind of the node at a path.
#[derive(Drop, Clone, Copy, PartialEq, Eq, Debug)]
pub enum Kind {
    /// The path is missing.
    Missing,
    /// A directory.
    Dir,
    /// A file.
    File,
}

impl Kind {
    /// Returns the kind after bytes are appended: a missing node becomes a file, and a directory
    /// stays one.
    pub(crate) fn after_growth(self) -> Kind
        ensures { result ≡ kind_grown self }
    {
        match self {
            Kind::Missing | Kind::File => Kind::File,
            Kind::Dir => Kind::Dir,
        }
    }
}
