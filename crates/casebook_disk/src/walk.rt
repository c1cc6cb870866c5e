//! A look at watched folders.
use crate::earlier::Earlier;
use crate::level::{Child, Level};
use crate::names::names_in;
use crate::place::{OpenDir, look_at, open_seen};
use crate::scope::Scope;
use crate::sighting::{NO_TIME, REFUSED, is_same_state, sight_of};
use casebook_watch::{FileTime, Kind, Sight, Sights};
use retro_path::Path;
use std::alloc::Global;
use std::collections::BTreeMap;
use std::fs::{File, Metadata};
use std::io::{self, ErrorKind};
use std::os::unix::fs::MetadataExt;
use std::time::{Duration, Instant, SystemTime, UNIX_EPOCH};

/// How long a look takes at most, in milliseconds.
const LIMIT: u64 = 1_500;

/// How long after its last change a directory is listed, to be quiet from then on, in seconds. This
/// is longer than a look takes, by more than the times of a file system are behind the clock.
const QUIET_AFTER: i64 = 2;

/// How many paths are looked at before the clock is.
const STEPS: u32 = 256;

/// A look at watched folders, as far as it has gone.
#[derive(Drop)]
pub(crate) struct Walk<'s> {
    rt: &'s HostRuntime,
    alloc: Global,
    /// When it began.
    began: Instant,
    /// How many paths were looked at since the clock was.
    steps: u32,
    /// The file systems of the folder.
    scope: Scope,
    /// What is left of the look before.
    earlier: Earlier<'s>,
    /// The last time of change in the look before.
    last: FileTime,
    /// The sights.
    pub(crate) sights: Sights,
    /// Those that differ from the look before.
    pub(crate) fresh: Sights,
    /// When the directories that were listed were read last, by this.
    pub(crate) left: BTreeMap<Path, FileTime>,
}

/// Returns the present time.
fn time_now(rt: &HostRuntime) -> io::Result<FileTime> {
    let since = match SystemTime::now(rt)?.duration_since(UNIX_EPOCH) {
        Ok(since) => since,
        Err(_) => Duration::from_secs(0),
    };
    Ok(FileTime {
        second: i64::try_from(since.as_secs()).unwrap_or(i64::MAX),
        nanosecond: since.subsec_nanos(),
    })
}

/// Returns the last time of change in the look before that isn't still to come, or a given time if
/// there is none after it. What other file systems hold doesn't count.
fn last_change(before: &Sights, first: FileTime, now: FileTime) -> FileTime {
    let mut last = first;
    for (_, sight) in before.iter() {
        let changed = sight.changed;
        if sight.kind != Kind::Other && changed.is_after(last) && !changed.is_after(now) {
            last = changed;
        }
    }
    last
}

/// Returns whether a directory has the names that it had at the look before: it is unchanged, and
/// was listed long enough after its last change. This shows by its time of reading, or by a time of
/// change in the look before (the head of the crate says why that is enough).
fn has_same_names(before: Option<&Sight>, now: &Sight, last: FileTime) -> bool {
    match before {
        Some(before) => {
            let quiet = FileTime {
                second: before.changed.second.saturating_add(QUIET_AFTER),
                nanosecond: before.changed.nanosecond,
            };
            is_same_state(before, now) && !(quiet.is_after(before.read) && quiet.is_after(last))
        }
        None => false,
    }
}

/// Returns whether an error says that nothing is there any more, or something else.
fn is_vanished(kind: ErrorKind) -> bool {
    kind == ErrorKind::NotFound || kind == ErrorKind::NotADirectory
}

/// Returns whether an error says that the system refuses to look at one file or directory.
fn is_refused(kind: ErrorKind) -> bool {
    kind == ErrorKind::PermissionDenied || kind == ErrorKind::NotConnected
}

impl<'s> Walk<'s> {
    /// Begins a look.
    pub(crate) fn begin(
        rt: &'s HostRuntime,
        alloc: Global,
        before: &'s Sights,
    ) -> io::Result<Walk<'s>> {
        Ok(Walk {
            rt,
            alloc,
            began: Instant::now(rt)?,
            steps: 0,
            scope: Scope::All,
            earlier: Earlier::of(before),
            last: last_change(before, NO_TIME, time_now(rt)?),
            sights: Sights::new(alloc),
            fresh: Sights::new(alloc),
            left: BTreeMap::new(alloc),
        })
    }

    /// Goes back to the first of the sights of the look before.
    pub(crate) fn go_back(&mut self, before: &'s Sights) {
        self.earlier = Earlier::of(before);
    }

    /// Returns `TimedOut` if the look takes too long.
    pub(crate) fn check_time(&mut self) -> io::Result<()> {
        self.steps = 0;
        if self.began.elapsed(self.rt)? > Duration::from_millis(LIMIT) {
            return Err(io::Error::from(ErrorKind::TimedOut));
        }
        Ok(())
    }

    /// Counts a path, and looks at the clock now and then.
    fn step(&mut self) -> io::Result<()> {
        self.steps = self.steps.saturating_add(1);
        if self.steps >= STEPS {
            return self.check_time();
        }
        Ok(())
    }

    /// Notes the sight of a path.
    fn note(&mut self, path: Path, sight: Sight, before: Option<&Sight>) -> io::Result<()> {
        let is_same = match before {
            Some(before) => *before == sight,
            None => false,
        };
        if !is_same {
            self.fresh.insert(path.copy()?, sight)?;
        }
        self.sights.insert(path, sight)?;
        Ok(())
    }

    /// Returns the names in an open directory, from the last to the first, and notes that this was
    /// a reading. A directory that the system refuses to list has none.
    fn list(&mut self, path: &Path, dir: &File, seen: &Sight) -> io::Result<Vec<Vec<u8>>> {
        let names = match names_in(self.rt, self.alloc, dir) {
            Ok(names) => names,
            Err(error) if is_vanished(error.kind()) || is_refused(error.kind()) => {
                return Ok(Vec::new(self.alloc));
            }
            Err(error) => return Err(error),
        };
        let after = sight_of(&dir.metadata()?, self.scope);
        if is_same_state(seen, &after) && after.read != seen.read {
            self.left.insert(path.copy()?, after.read)?;
        }
        Ok(names)
    }

    /// Goes into an open directory.
    fn enter(&mut self, open: OpenDir, seen: &Sight, before: Option<&Sight>) -> io::Result<Level> {
        self.check_time()?;
        if has_same_names(before, seen, self.last) {
            return Level::of(self.alloc, open, None);
        }
        let names = self.list(&open.path, &open.dir, seen)?;
        Level::of(self.alloc, open, Some(names))
    }

    /// Goes into a directory in an open one, if it is still there.
    fn go_below(
        &mut self,
        level: &Level,
        child: Child<'s>,
        there: &Metadata,
        seen: &Sight,
    ) -> io::Result<Option<Level>> {
        let Child { path, before } = child;
        match open_seen(self.rt, self.alloc, level.at(), there) {
            Ok(Some(dir)) => Ok(Some(self.enter(OpenDir { path, dir }, seen, before)?)),
            Ok(None) => Ok(None),
            Err(error) if is_vanished(error.kind()) || is_refused(error.kind()) => Ok(None),
            Err(error) => Err(error),
        }
    }

    /// Looks at a name in an open directory, and returns it open if it is a directory too.
    fn visit(&mut self, level: &Level, child: Child<'s>) -> io::Result<Option<Level>> {
        self.step()?;
        let there = match look_at(self.rt, level.at()) {
            Ok(Some(there)) => there,
            Ok(None) => return Ok(None),
            Err(error) if is_refused(error.kind()) => {
                self.note(child.path, REFUSED, child.before)?;
                return Ok(None);
            }
            Err(error) => return Err(error),
        };
        let sight = sight_of(&there, self.scope);
        if sight.kind != Kind::Dir {
            self.note(child.path, sight, child.before)?;
            return Ok(None);
        }
        self.note(child.path.copy()?, sight, child.before)?;
        self.go_below(level, child, &there, &sight)
    }

    /// Looks at an open folder, and goes into it.
    fn begin_folder(&mut self, folder: &OpenDir) -> io::Result<Level> {
        let there = folder.dir.metadata()?;
        if there.nlink() == 0 {
            // It was removed since it was opened.
            return Err(io::Error::from(ErrorKind::NotFound));
        }
        self.scope = Scope::Device(there.dev());
        let sight = sight_of(&there, self.scope);
        let before = self.earlier.at(&folder.path);
        self.note(folder.path.copy()?, sight, before)?;
        let open = OpenDir {
            path: folder.path.copy()?,
            dir: folder.dir.try_clone()?,
        };
        self.enter(open, &sight, before)
    }

    /// Looks at an open folder and at all that is in it, in order of paths.
    pub(crate) fn go_through(&mut self, folder: &OpenDir) -> io::Result<()> {
        let mut levels = Vec::new(self.alloc);
        levels.push(self.begin_folder(folder)?)?;
        for _ in 0..u64::MAX {
            let Some(level) = levels.last_mut() else {
                return Ok(());
            };
            match level.next(self.alloc, &mut self.earlier)? {
                Some(child) => {
                    if let Some(below) = self.visit(level, child)? {
                        levels.push(below)?;
                    }
                }
                None => {
                    levels.pop();
                }
            }
        }
        Ok(())
    }
}
