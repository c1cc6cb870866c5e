//! Folders of the file system that are watched.
ghost use Rattle.std.specs.Prelude.{None};

use crate::errors::watch_error;
use crate::own_readings::OwnReadings;
use crate::place::{DiskPlace, OpenDir, dir_below, last_name, opened};
use crate::scope::Scope;
use crate::walk::Walk;
use crate::watched_node::{Reading, read_in};
use casebook_observe::{Found, WatchError, Watched};
use casebook_spool::{Looked, Unkept};
use casebook_watch::{Kind, Sights};
use retro_path::Path;
use std::alloc::Global;
use std::collections::BTreeMap;
use std::fs::File;
use std::io::{self, ErrorKind};

/// Folders of the file system that are watched.
#[derive(Drop)]
pub struct DiskWatched<'a> {
    rt: &'a HostRuntime,
    alloc: Global,
    /// The folders, in order of their paths.
    folders: Vec<OpenDir>,
    /// The sights of the last look that differ from those of the look before it.
    fresh: Sights,
    /// What was listed or read since the last look began, by this.
    own: OwnReadings,
    /// The directory in which a file was read last.
    last: Option<OpenDir>,
}

/// Returns the paths of directories, in order and each once, with the directories.
fn open_all(rt: &HostRuntime, alloc: Global, folders: Vec<Path>) -> io::Result<Vec<OpenDir>> {
    let mut paths = folders;
    paths.sort()?;
    paths.dedup();
    let mut open = Vec::new(alloc);
    for path in paths {
        let dir = opened(rt, alloc, path.as_str())?;
        open.push(OpenDir { path, dir })?;
    }
    Ok(open)
}

impl<'a> DiskWatched<'a> {
    /// Opens folders, each on its file system. If the name of one is that of a link, the folder is
    /// where it leads.
    ///
    /// # Errors
    ///
    /// `NotFound` or `NotADirectory` if a folder isn't there, and what the system refuses.
    pub fn open(rt: &'a HostRuntime, folders: Vec<Path>) -> io::Result<DiskWatched<'a>> {
        let alloc = rt.alloc();
        Ok(DiskWatched {
            rt,
            alloc,
            folders: open_all(rt, alloc, folders)?,
            fresh: Sights::new(alloc),
            own: OwnReadings::of_listed(alloc, BTreeMap::new(alloc)),
            last: None,
        })
    }

    /// Looks at all folders.
    fn look_at_all(&mut self, before: &Sights) -> io::Result<Sights> {
        let mut walk = Walk::begin(self.rt, self.alloc, before)?;
        let mut last: Option<&OpenDir> = None;
        for folder in &self.folders {
            if !is_seen(&walk.sights, &folder.path) {
                if is_below(folder, last) {
                    walk.go_back(before);
                }
                walk.go_through(folder)?;
                last = Some(folder);
            }
        }
        // What was listed was listed before this.
        walk.check_time()?;
        self.fresh = walk.fresh;
        self.own = OwnReadings::of_listed(self.alloc, walk.left);
        Ok(walk.sights)
    }

    /// Opens the directory at a path in one of the folders. A folder that is below another one is
    /// after it, and goes before it.
    fn open_dir(&self, path: &Path) -> io::Result<Option<File>> {
        let mut outer = None;
        for folder in &self.folders {
            if path.starts_with(&folder.path) {
                outer = Some(folder);
            }
        }
        let Some(folder) = outer else {
            return Ok(None);
        };
        let Some(names) = path.as_str().strip_prefix(folder.path.as_str()) else {
            return Ok(None);
        };
        let scope = Scope::of(&folder.dir)?;
        match dir_below(self.rt, self.alloc, &folder.dir, names, scope)? {
            DiskPlace::In(dir) => Ok(Some(dir)),
            _ => Ok(None),
        }
    }

    /// Takes the directory at a path, if a file was read in it last, or opens it.
    fn take_dir(&mut self, path: Path) -> io::Result<Option<OpenDir>> {
        match self.last.take() {
            Some(last) if last.path == path => Ok(Some(last)),
            _ => match self.open_dir(&path)? {
                Some(dir) => Ok(Some(OpenDir { path, dir })),
                None => Ok(None),
            },
        }
    }

    /// Reads what is at a path, or returns `None` if its directory is gone.
    fn read_at(&mut self, path: &Path) -> io::Result<Option<Found>> {
        let Some(open) = self.take_dir(path.parent(self.alloc)?)? else {
            return Ok(None);
        };
        let name = last_name(self.alloc, path)?;
        let reading = read_in(self.rt, self.alloc, &open.dir, name.as_str());
        self.last = Some(open);
        let Reading { found, sights } = reading?;
        if let Some((before, after)) = sights {
            let seen = self.fresh.get(path).unwrap_or(&before);
            self.own.note(path, seen, &before, &after)?;
        }
        Ok(Some(found))
    }
}

/// Returns whether a look has been in a directory.
fn is_seen(sights: &Sights, path: &Path) -> bool {
    match sights.get(path) {
        Some(sight) => sight.kind == Kind::Dir,
        None => false,
    }
}

/// Returns whether a folder is below the one that was looked at last.
fn is_below(folder: &OpenDir, last: Option<&OpenDir>) -> bool {
    match last {
        Some(last) => folder.path.starts_with(&last.path),
        None => false,
    }
}

impl Watched for DiskWatched<'_> {
    // Nothing is said of what a disk holds.
    ghost finds = { λ _. None };

    fn look(&mut self, _alloc: Global, before: &Sights) -> Result<Sights, WatchError> {
        self.last = None;
        match self.look_at_all(before) {
            Ok(sights) => Ok(sights),
            Err(error) => Err(watch_error(error)),
        }
    }

    fn read(&mut self, _alloc: Global, path: &Path) -> Result<Found, WatchError> {
        match self.read_at(path) {
            Ok(Some(found)) => Ok(found),
            Ok(None) => Ok(Found::Unkept(Unkept::Changing)),
            Err(error) => match error.kind() {
                ErrorKind::OutOfMemory => Err(WatchError::NoMem),
                ErrorKind::NotFound | ErrorKind::NotADirectory => {
                    Ok(Found::Unkept(Unkept::Changing))
                }
                _ => Ok(Found::Unkept(Unkept::Unreadable)),
            },
        }
    }

    fn looked(&mut self, alloc: Global) -> Result<Vec<Looked>, WatchError> {
        match self.own.all(alloc) {
            Ok(looked) => Ok(looked),
            Err(error) => Err(watch_error(error)),
        }
    }
}
