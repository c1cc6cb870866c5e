//! Folders of the file system.
ghost use Rattle.std.specs.Prelude.{None, false, map};
ghost use Rattle.casebook_folder.specs.Made.{step_of};

use crate::errors::folder_error;
use crate::place::{DiskPlace, name_in, open_in, opened, place_of};
use crate::reading::find_in;
use crate::scope::Scope;
use crate::target::Target;
use crate::temporary::{clear, has_temporary, is_temporary};
use casebook_folder::{Folder, FolderError, Found, MadeStep, Obstacle, push_step};
use retro_path::{Listing, Path};
use std::alloc::Global;
use std::fs::{self, File};
use std::io::{self, ErrorKind};

/// A folder of the file system, and the steps that were made in it.
#[derive(Drop)]
pub struct Disk<'a> {
    rt: &'a HostRuntime,
    alloc: Global,
    root: File,
    made: Vec<MadeStep>,
}

impl<'a> Disk<'a> {
    /// Opens the folder with a name.
    pub fn open(rt: &'a HostRuntime, name: &str) -> io::Result<Disk<'a>> {
        let alloc = rt.alloc();
        Ok(Disk {
            rt,
            alloc,
            root: opened(rt, alloc, name)?,
            made: Vec::new(alloc),
        })
    }

    /// Returns what is at a path.
    fn find(&self, path: &Path) -> io::Result<Found> {
        let (place, name) = place_of(self.rt, self.alloc, &self.root, path)?;
        match place {
            DiskPlace::In(dir) => find_in(self.rt, self.alloc, &dir, name.as_str()),
            DiskPlace::Missing => Ok(Found::Missing),
            DiskPlace::Blocked(obstacle) => Ok(Found::Blocked(obstacle)),
        }
    }

    /// Returns whether a directory has a child whose name isn't among some names, and isn't what a
    /// stopped run left. A name that isn't UTF-8 isn't among them.
    fn has_child_besides(&self, path: &Path, names: &Listing) -> io::Result<bool> {
        let (place, name) = place_of(self.rt, self.alloc, &self.root, path)?;
        let DiskPlace::In(dir) = place else {
            return Ok(true);
        };
        let scope = Scope::of(&dir)?;
        let DiskPlace::In(below) = open_in(self.rt, self.alloc, &dir, name.as_str(), scope)? else {
            return Ok(true);
        };
        for entry in fs::read_dir(self.rt, name_in(self.alloc, &below, "")?.as_str())? {
            match entry {
                Ok(entry) => {
                    let child = entry.file_name();
                    if !is_temporary(child) && !has_name(names, child) {
                        return Ok(true);
                    }
                }
                Err(error) if error.kind() == ErrorKind::InvalidFilename => return Ok(true),
                Err(error) => return Err(error),
            }
        }
        Ok(false)
    }

    /// Makes the new node of a path under its temporary name, and looks at the path again.
    /// Returns where the path is, or `None` if it doesn't hold `before`.
    fn prepare(&self, path: &Path, before: &Found, after: &Found) -> io::Result<Option<Target>> {
        let (DiskPlace::In(dir), name) = place_of(self.rt, self.alloc, &self.root, path)? else {
            return Err(io::Error::from(ErrorKind::NotFound));
        };
        if name.is_empty() {
            return Err(io::Error::from(ErrorKind::InvalidInput));
        }
        let target = Target::of(self.alloc, dir, name)?;
        if let Err(error) = target.make(self.rt, self.alloc, after) {
            // A part of it may be there, as on a full disk. If it can't be removed, it stays.
            let _ = clear(self.rt, target.made_at.as_str());
            return Err(error);
        }
        if !self.find(path)?.is_same(before) {
            clear(self.rt, target.made_at.as_str())?;
            return Ok(None);
        }
        Ok(Some(target))
    }

    /// Removes what a stopped step left beside a path, under its temporary name.
    fn clear_beside(&self, path: &Path) -> io::Result<()> {
        let (DiskPlace::In(dir), name) = place_of(self.rt, self.alloc, &self.root, path)? else {
            return Ok(());
        };
        if name.is_empty() || !has_temporary(name.as_str()) {
            return Ok(());
        }
        clear(self.rt, Target::of(self.alloc, dir, name)?.made_at.as_str())
    }
}

/// Returns whether a name is among some names.
fn has_name(names: &Listing, name: &str) -> bool {
    names.names().iter().any(|other| other.as_str() == name)
}

impl Folder for Disk<'_> {
    // Nothing is said of what a disk holds.
    ghost first = { λ _. None };

    ghost made = { λ d. map step_of d.made.items };

    ghost parts = { λ _ _. false };

    fn look(&self, path: &Path) -> Result<Found, FolderError> {
        match self.find(path) {
            Ok(found) => Ok(found),
            Err(error) if error.kind() == ErrorKind::PermissionDenied => {
                Ok(Found::Blocked(Obstacle::Unreadable))
            }
            Err(error) => Err(folder_error(error)),
        }
    }

    fn has_other_child(&self, path: &Path, names: &Listing) -> Result<bool, FolderError> {
        match self.has_child_besides(path, names) {
            Ok(other) => Ok(other),
            Err(error) => Err(folder_error(error)),
        }
    }

    fn put(&mut self, path: &Path, before: &Found, after: &Found) -> Result<(), FolderError> {
        let target = match self.prepare(path, before, after) {
            Ok(Some(target)) => target,
            Ok(None) => return Err(FolderError::Changed),
            Err(error) => return Err(folder_error(error)),
        };
        push_step(&mut self.made, path, before, after)?;
        match target.exchange(self.rt, self.alloc, before, after) {
            Ok(()) => Ok(()),
            Err(error) => Err(folder_error(error)),
        }
    }

    fn clear(&mut self, path: &Path) -> Result<(), FolderError> {
        match self.clear_beside(path) {
            Ok(()) => Ok(()),
            Err(error) => Err(folder_error(error)),
        }
    }
}
