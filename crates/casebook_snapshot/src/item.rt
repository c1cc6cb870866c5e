//! What a folder holds at a path.
ghost use Rattle.std.specs.Prelude.{◌≡◌, IfOk, IsTrue};
ghost use Rattle.casebook_snapshot.specs.Items.{is_missing};
ghost use Rattle.casebook_snapshot.specs.Reasons.{item_reason};

use crate::NoMem;
use crate::reason::Reason;
use casebook_folder::Attributes;
use retro_tree::{Bytes, Entry, FILE_LIMIT};

/// What a folder holds at a path, if no link is followed.
#[derive(Clone, Drop)]
pub enum Item {
    /// Nothing.
    Missing,
    /// A directory.
    Dir(Attributes),
    /// A file with its bytes.
    File(Bytes, Attributes),
    /// Something that a tree can't hold, or that isn't read.
    Barred(Reason),
}

/// A directory or file that is kept, with its mode and owner.
#[derive(Drop)]
pub struct Row {
    /// The directory or file.
    pub entry: Entry,
    /// The mode and owner.
    pub attributes: Attributes,
}

impl Item {
    /// Returns a copy.
    pub fn copy(&self) -> Result<Item, NoMem>
        ensures { IfOk result (λ copy. copy ≡ self.now) }
    {
        self.clone()
    }

    /// Returns whether this is nothing.
    pub fn is_missing(&self) -> bool
        ensures { result ≡ is_missing self.now }
    {
        match self {
            Item::Missing => true,
            _ => false,
        }
    }

    /// Returns the reason to skip this, wherever it is.
    pub(crate) fn reason(&self) -> Option<Reason>
        ensures { result ≡ item_reason self.now }
    {
        match self {
            Item::Missing | Item::Dir(_) => None,
            Item::File(bytes, _) => {
                if bytes.len() as u64 > FILE_LIMIT {
                    return Some(Reason::TooLarge);
                }
                None
            }
            Item::Barred(reason) => Some(*reason),
        }
    }
}
