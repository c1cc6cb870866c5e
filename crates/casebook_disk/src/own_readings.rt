//! What was read by the recorder itself.
use crate::sighting::is_same_state;
use casebook_spool::Looked;
use casebook_watch::{FileTime, Sight};
use retro_path::Path;
use std::alloc::Global;
use std::collections::BTreeMap;
use std::io;

/// A file or a link that was read.
#[derive(Drop)]
struct OwnFile {
    /// The time of the last reading that this left.
    read: FileTime,
    /// The names by which it was read.
    names: Vec<Path>,
}

/// When what was listed or read since a look began was read last, if that was by the recorder alone.
#[derive(Drop)]
pub(crate) struct OwnReadings {
    alloc: Global,
    /// The times, by path.
    times: BTreeMap<Path, FileTime>,
    /// The files and links, by number. A file can have several names.
    files: BTreeMap<u64, OwnFile>,
}

impl OwnReadings {
    /// Returns the times of directories that were listed.
    pub(crate) fn of_listed(alloc: Global, times: BTreeMap<Path, FileTime>) -> OwnReadings {
        OwnReadings {
            alloc,
            times,
            files: BTreeMap::new(alloc),
        }
    }

    /// Notes that what is at a path was read, by its sights before and after, if only the recorder
    /// has read it since a look saw it there.
    pub(crate) fn note(
        &mut self,
        path: &Path,
        seen: &Sight,
        before: &Sight,
        after: &Sight,
    ) -> io::Result<()> {
        if !is_same_state(seen, after) {
            Ok(())
        } else if seen.read != before.read {
            self.note_other_name(path, before, after)
        } else if before.read != after.read {
            self.note_first_name(path, after)
        } else {
            Ok(())
        }
    }

    /// Notes that a file was read that wasn't read before.
    fn note_first_name(&mut self, path: &Path, after: &Sight) -> io::Result<()> {
        let mut names = Vec::new(self.alloc);
        names.push(path.copy()?)?;
        let file = OwnFile {
            read: after.read,
            names,
        };
        self.files.insert(after.number, file)?;
        self.times.insert(path.copy()?, after.read)?;
        Ok(())
    }

    /// Notes that a file was read that was read by another name right before.
    fn note_other_name(&mut self, path: &Path, before: &Sight, after: &Sight) -> io::Result<()> {
        let Some(file) = self.files.get_mut(&before.number) else {
            return Ok(());
        };
        if file.read != before.read {
            return Ok(());
        }
        file.read = after.read;
        file.names.push(path.copy()?)?;
        for name in &file.names {
            self.times.insert(name.copy()?, after.read)?;
        }
        Ok(())
    }

    /// Returns the paths with their times.
    pub(crate) fn all(&self, alloc: Global) -> io::Result<Vec<Looked>> {
        let mut looked = Vec::new(alloc);
        for (path, read) in &self.times {
            looked.push(Looked {
                path: path.copy()?,
                read: *read,
            })?;
        }
        Ok(looked)
    }
}
