//! Folders of the file system that are only looked at.
ghost use Rattle.std.specs.Prelude.{None};

use crate::NoMem;
use crate::errors::snapshot_error;
use crate::item::item_in;
use crate::names::names_in;
use crate::place::{DiskPlace, OpenDir, dir_at, last_name, opened};
use crate::scope::Scope;
use casebook_snapshot::{Child, Item, Listing, Reason, SnapshotError};
use retro_path::Path;
use std::alloc::Global;
use std::cell::Cell;
use std::fs::File;
use std::io::{self, ErrorKind};

/// A folder of the file system that is only looked at.
#[derive(Drop)]
pub struct DiskListing<'a> {
    rt: &'a HostRuntime,
    alloc: Global,
    root: File,
    scope: Scope,
    /// The directory that was asked for last. A walk looks at one name of it after another.
    last: Cell<Option<OpenDir>>,
}

impl<'a> DiskListing<'a> {
    /// Opens the folder with a name, on its file system. If the name is that of a link, the folder is
    /// where it leads.
    pub fn open(rt: &'a HostRuntime, name: &str) -> io::Result<DiskListing<'a>> {
        let alloc = rt.alloc();
        let root = opened(rt, alloc, name)?;
        Ok(DiskListing {
            rt,
            alloc,
            scope: Scope::of(&root)?,
            root,
            last: Cell::new(None),
        })
    }

    /// Looks also at what other file systems hold that are mounted in the folder.
    pub fn entering_mounts(mut self) -> DiskListing<'a> {
        self.scope = Scope::All;
        self
    }

    /// Takes the directory that was asked for last, if it is the one at a path.
    fn take_last(&self, path: &Path) -> Option<OpenDir> {
        match self.last.replace(None) {
            Some(last) if last.path == *path => Some(last),
            _ => None,
        }
    }

    /// Returns what is at a name in an open directory, which stays open until another one is asked
    /// for.
    fn find_in(&self, open: OpenDir, name: &str) -> io::Result<Item> {
        let item = item_in(self.rt, self.alloc, &open.dir, self.scope, name);
        self.last.set(Some(open));
        item
    }

    /// Returns what is at a path.
    fn find(&self, path: &Path) -> io::Result<Item> {
        let name = last_name(self.alloc, path)?;
        let parent = path.parent(self.alloc)?;
        if let Some(open) = self.take_last(&parent) {
            return self.find_in(open, name.as_str());
        }
        match dir_at(self.rt, self.alloc, &self.root, &parent, self.scope)? {
            DiskPlace::In(dir) => self.find_in(OpenDir { path: parent, dir }, name.as_str()),
            DiskPlace::Missing => Ok(Item::Missing),
            DiskPlace::Blocked(_) => Ok(Item::Barred(Reason::Changing)),
        }
    }

    /// Returns the names in an open directory, which stays open until another one is asked for.
    fn names_of(&self, open: OpenDir) -> io::Result<Option<Vec<Vec<u8>>>> {
        let names = names_in(self.rt, self.alloc, &open.dir);
        self.last.set(Some(open));
        Ok(Some(names?))
    }

    /// Returns the names in a directory, or `None` if there is no directory.
    fn names(&self, path: &Path) -> io::Result<Option<Vec<Vec<u8>>>> {
        if let Some(open) = self.take_last(path) {
            return self.names_of(open);
        }
        match dir_at(self.rt, self.alloc, &self.root, path, self.scope)? {
            DiskPlace::In(dir) => {
                let path = path.copy()?;
                self.names_of(OpenDir { path, dir })
            }
            _ => Ok(None),
        }
    }
}

/// Returns children of a directory, of their names.
fn children_of(alloc: Global, path: &Path, names: Vec<Vec<u8>>) -> Result<Vec<Child>, NoMem> {
    let mut children = Vec::new(alloc);
    for name in names {
        let parent = path.copy()?;
        children.push(Child { parent, name })?;
    }
    Ok(children)
}

impl Listing for DiskListing<'_> {
    // Nothing is said of what a disk holds.
    ghost holds = { λ _. None };

    fn look(&self, path: &Path) -> Result<Item, SnapshotError> {
        match self.find(path) {
            Ok(item) => Ok(item),
            Err(error) => match error.kind() {
                ErrorKind::NotFound => Ok(Item::Missing),
                ErrorKind::PermissionDenied => Ok(Item::Barred(Reason::Unreadable)),
                // It was a directory just before that.
                ErrorKind::NotADirectory => Ok(Item::Barred(Reason::Changing)),
                _ => Err(snapshot_error(error)),
            },
        }
    }

    fn list(&self, alloc: Global, path: &Path) -> Result<Option<Vec<Child>>, SnapshotError> {
        match self.names(path) {
            Ok(Some(names)) => Ok(Some(children_of(alloc, path, names)?)),
            Ok(None) => Ok(None),
            Err(error) => match error.kind() {
                // `look` saw its names, so this has changed since then.
                ErrorKind::NotFound | ErrorKind::NotADirectory | ErrorKind::PermissionDenied => {
                    Ok(None)
                }
                _ => Err(snapshot_error(error)),
            },
        }
    }
}
