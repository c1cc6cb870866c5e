//! What the system says of one path.
ghost use Rattle.std.specs.Prelude.{◌≡◌};
ghost use Rattle.std.specs.Option.{option_copied};
ghost use Rattle.casebook_watch.specs.Sight.{has_other_content, has_other_state, is_same_node};
ghost use Rattle.casebook_watch.specs.Seen.{is_changed, is_listed, is_read};
ghost use Rattle.casebook_watch.specs.Delta.{is_other};

use crate::file_time::FileTime;
use crate::kind::Kind;
use casebook_folder::Attributes;

/// What the system says of one path without opening it and without following a link.
#[derive(Clone, Copy, Debug, PartialEq, Eq)]
pub struct Sight {
    /// What is there.
    pub kind: Kind,
    /// The number of its bytes.
    pub size: u64,
    /// Its number in its file system. Two files that exist at the same time have two numbers.
    pub number: u64,
    /// Its mode, owner and group.
    pub attributes: Attributes,
    /// When it was last read, or listed if it is a directory.
    pub read: FileTime,
    /// When its bytes were last written, or a name in it if it is a directory.
    pub written: FileTime,
    /// When its bytes, its attributes or its names last changed.
    pub changed: FileTime,
}

impl Sight {
    /// Returns whether another sight is of the same file or directory: the kind and the number are
    /// equal.
    fn is_same_node(&self, other: &Sight) -> bool
        ensures { result ≡ is_same_node self.now other.now }
    {
        self.kind == other.kind && self.number == other.number
    }

    /// Returns whether a later sight has another size, time of writing or time of change.
    fn has_other_content(&self, later: &Sight) -> bool
        ensures { result ≡ has_other_content self.now later.now }
    {
        self.size != later.size || self.written != later.written || self.changed != later.changed
    }

    /// Returns whether a later sight of the same file or directory says that it was changed. The
    /// times and the size of a directory don't count, since they follow the names in it.
    fn has_other_state(&self, later: &Sight) -> bool
        ensures { result ≡ has_other_state self.now later.now }
    {
        if self.attributes != later.attributes {
            return true;
        }
        later.kind != Kind::Dir && self.has_other_content(later)
    }

    /// Returns whether this is a file that was read since the path was seen before. A file that
    /// wasn't there before was read if that was after it was written.
    pub(crate) fn is_read(&self, before: Option<&Sight>) -> bool
        ensures { result ≡ is_read (option_copied before.entry) self.now }
    {
        if self.kind != Kind::File {
            return false;
        }
        match before {
            Some(old) if old.is_same_node(self) => old.read != self.read,
            _ => self.read.is_after(self.written),
        }
    }

    /// Returns whether this is a directory that was listed since the path was seen before.
    pub(crate) fn is_listed(&self, before: Option<&Sight>) -> bool
        ensures { result ≡ is_listed (option_copied before.entry) self.now }
    {
        match before {
            Some(old) => {
                self.kind == Kind::Dir && old.is_same_node(self) && old.read != self.read
            }
            None => false,
        }
    }

    /// Returns whether what is at the path is new or was changed since the path was seen before.
    pub fn is_changed(&self, before: Option<&Sight>) -> bool
        ensures { result ≡ is_changed (option_copied before.entry) self.now }
    {
        match before {
            Some(old) => !old.is_same_node(self) || old.has_other_state(self),
            None => true,
        }
    }

    /// Returns whether this differs in anything from the sight of the path before.
    pub(crate) fn is_other(&self, before: Option<&Sight>) -> bool
        ensures { result ≡ is_other (option_copied before.entry) self.now }
    {
        match before {
            Some(old) => old != self,
            None => true,
        }
    }
}
