//! Entries of a tree.
ghost use Rattle.std.specs.Prelude.{◌≡◌, OnOk, OnErr, Some, nat_le};
ghost use Rattle.retro_tree.specs.Node.{entry_grown, entry_cut, node_of, size_of, file_limit};

use retro_path::{Bytes, NoMem};

/// The maximum size of a file, in bytes.
pub const FILE_LIMIT: u64 = 1_048_576;

/// What a tree holds at a path. A tree has no entry for a missing path.
#[derive(Drop, Clone)]
pub enum Entry {
    /// A directory.
    Dir,
    /// A file with its bytes.
    File(Bytes),
}

impl Entry {
    /// Appends bytes to a file, in place. A directory stays unchanged.
    pub(crate) fn grow(&mut self, bytes: &Bytes) -> Result<(), NoMem>
        ensures ok { OnOk result (self.new ≡ entry_grown bytes.now self.old) }
        ensures err { OnErr result (self.new ≡ self.old) }
    {
        match self {
            Entry::Dir => Ok(()),
            Entry::File(old) => old.extend(bytes.as_slice()),
        }
    }

    /// Shortens a file to `length` bytes, if it has more. A directory stays unchanged. Takes no
    /// memory.
    pub(crate) fn cut(&mut self, length: usize)
        ensures { self.new ≡ entry_cut length self.old }
    {
        match self {
            Entry::Dir => (),
            Entry::File(bytes) => bytes.truncate(length),
        }
    }

    /// Returns whether a file is within the limit. A directory always is.
    pub(crate) fn fits(&self) -> bool
        ensures { result ≡ nat_le (size_of (node_of (Some self.now))) file_limit }
    {
        match self {
            Entry::Dir => true,
            Entry::File(bytes) => bytes.len() as u64 <= FILE_LIMIT,
        }
    }
}
