//! Permits to write to a file.
ghost use Rattle.std.specs.Prelude.{◌≡◌};
ghost use Rattle.retro_tree.specs.Node.{kind_of, size_of, permit_at};
ghost use Rattle.retro_tree.specs.declared.node.Node.{Node as NodeValue};

use crate::entry::FILE_LIMIT;
use crate::kind::Kind;

/// Whether bytes can be appended to a file, and if not, why.
#[derive(Drop, Clone, Copy, PartialEq, Eq, Debug)]
pub enum Permit {
    /// They can be written.
    Yes,
    /// The parent is missing.
    NoParent,
    /// The parent is a file.
    NotDir,
    /// The path is a directory.
    IsDir,
    /// The file would exceed `FILE_LIMIT`.
    TooLarge,
}

impl Permit {
    /// Returns whether `more` bytes can be appended to a node with the given kind and size, whose
    /// parent has the kind `parent`.
    pub(crate) fn of(kind: Kind, size: usize, parent: Kind, more: u64) -> Permit
        ensures { (node above : NodeValue) → kind ≡ kind_of node → size ≡ size_of node
            → parent ≡ kind_of above → result ≡ permit_at node above more }
    {
        if kind == Kind::Dir {
            return Permit::IsDir;
        }
        match parent {
            Kind::Missing => Permit::NoParent,
            Kind::File => Permit::NotDir,
            Kind::Dir => {
                if more > FILE_LIMIT || size as u64 > FILE_LIMIT - more {
                    Permit::TooLarge
                } else {
                    Permit::Yes
                }
            }
        }
    }
}
