//! The program `casebook`, run on the process's arguments, files, standard input, output and error.
#![tactic(auto)]

ghost use Rattle.std.specs.Prelude.{None};

use casebook_cli::{
    Documents, Exit, Hindrance, Output, Problem, Progress, ReadFault, Step, Stop, run_with,
};
use casebook_disk::{
    Disk, DiskListing, DiskSource, DiskSpool, DiskWatched, unseen_rows, watched_folders,
    write_new_file,
};
use casebook_folder::FolderError;
use casebook_folder_cli::{Folders, Mounts, Owner};
use casebook_recorder_cli::{OpenError, OpenSpool, SENT_LIMIT, Spools};
use casebook_restore::PlacedFolder;
use casebook_snapshot::SnapshotError;
use casebook_text::SafeLine;
use retro_path::Path;
use std::alloc::Global;
use std::cell::Cell;
use std::io::{ErrorKind, Read, Write};
use std::os::unix::fs::MetadataExt;
use std::process::ExitCode;
use std::time::{SystemTime, UNIX_EPOCH};
use std::{env, fs};

/// From so many bytes on, reading a log takes a second or more.
const LONG_LOG: usize = 10_000_000;

/// From so many lines on, a repair takes a second or more.
const MANY_LINES: usize = 10_000;

/// Goes to the start of a terminal's line, and empties it.
const CLEAR: &str = "\r\u{1B}[K";

/// The files and folders of the process, and its standard input under the name `-`.
#[derive(Drop)]
struct Files<'a> {
    rt: &'a HostRuntime,
    /// Whether standard error is a terminal, on which it is said how far the work is.
    tells: bool,
    /// Whether something is said there now.
    has_told: Cell<bool>,
}

/// Returns whether an open file of the process is a terminal, by its name below `/dev`. Where there
/// is no `/proc`, nothing is one.
fn is_terminal(rt: &HostRuntime, descriptor: &str) -> bool {
    match fs::read_link(rt, descriptor) {
        Ok(path) => match path.to_str() {
            Some(name) => name.starts_with("/dev/pts/") || name.starts_with("/dev/tty"),
            None => false,
        },
        Err(_) => false,
    }
}

/// Returns whether the environment asks for no colours: `NO_COLOR` has a value, or the terminal is
/// one without any.
fn is_plain(rt: &HostRuntime) -> bool {
    let is_asked = match env::var(rt, "NO_COLOR") {
        Ok(value) => !value.as_str().is_empty(),
        Err(_) => false,
    };
    match env::var(rt, "TERM") {
        Ok(terminal) => is_asked || terminal.as_str() == "dumb",
        Err(_) => is_asked,
    }
}

/// Returns why a file couldn't be read.
fn fault_of(error: std::io::Error) -> ReadFault {
    match error.kind() {
        ErrorKind::OutOfMemory => ReadFault::NoMem,
        ErrorKind::NotFound => ReadFault::Unreadable(Hindrance::Missing),
        ErrorKind::IsADirectory => ReadFault::Unreadable(Hindrance::Directory),
        ErrorKind::PermissionDenied => ReadFault::Unreadable(Hindrance::NotPermitted),
        _ => ReadFault::Unreadable(Hindrance::Other),
    }
}

impl Documents for Files<'_> {
    ghost bytes_of = { λ _. None };

    fn read(&self, alloc: Global, name: &str) -> Result<Vec<u8>, ReadFault> {
        if name == "-" {
            let mut bytes = Vec::new(alloc);
            return match self.rt.stdin().read_to_end(&mut bytes) {
                Ok(_) => Ok(bytes),
                Err(error) => Err(fault_of(error)),
            };
        }
        match fs::read(self.rt, name) {
            Ok(bytes) => Ok(bytes),
            Err(error) => Err(fault_of(error)),
        }
    }
}

/// Returns why an undo file couldn't be read or written.
fn undo_fault_of(error: std::io::Error) -> FolderError {
    match error.kind() {
        ErrorKind::OutOfMemory => FolderError::NoMem,
        _ => FolderError::Failed,
    }
}

/// Returns why a folder couldn't be opened.
fn folder_fault_of(error: std::io::Error) -> SnapshotError {
    match error.kind() {
        ErrorKind::OutOfMemory => SnapshotError::NoMem,
        ErrorKind::NotADirectory => SnapshotError::NotADirectory,
        _ => SnapshotError::Failed,
    }
}

impl<'a> Folders for Files<'a> {
    type Listed = DiskListing<'a>;

    type Opened = PlacedFolder<Disk<'a>>;

    ghost holds = { λ _. None };

    fn list(
        &self,
        _alloc: Global,
        name: &str,
        mounts: Mounts,
    ) -> Result<Self::Listed, SnapshotError> {
        match (DiskListing::open(self.rt, name), mounts) {
            (Ok(listing), Mounts::Skipped) => Ok(listing),
            (Ok(listing), Mounts::Entered) => Ok(listing.entering_mounts()),
            (Err(error), _) => Err(folder_fault_of(error)),
        }
    }

    fn file(&self, alloc: Global, name: &str) -> Result<Vec<u8>, SnapshotError> {
        match self.read(alloc, name) {
            Ok(bytes) => Ok(bytes),
            Err(ReadFault::NoMem) => Err(SnapshotError::NoMem),
            Err(ReadFault::Unreadable(_)) => Err(SnapshotError::Failed),
        }
    }

    fn now(&self) -> Result<i64, SnapshotError> {
        let Ok(now) = SystemTime::now(self.rt) else {
            return Err(SnapshotError::Failed);
        };
        match now.duration_since(UNIX_EPOCH) {
            Ok(since) => Ok(since.as_secs() as i64),
            Err(_) => Err(SnapshotError::Failed),
        }
    }

    fn open(&self, alloc: Global, name: &str, at: &Path) -> Result<Self::Opened, SnapshotError> {
        match Disk::open(self.rt, name) {
            Ok(disk) => Ok(PlacedFolder::new(alloc, disk, at.copy()?)),
            Err(error) => Err(folder_fault_of(error)),
        }
    }

    fn owner(&self) -> Result<Owner, SnapshotError> {
        // The system shows each process as a directory of the user who runs it.
        match fs::metadata(self.rt, "/proc/self") {
            Ok(process) => Ok(Owner {
                uid: process.uid(),
                gid: process.gid(),
            }),
            Err(error) => Err(folder_fault_of(error)),
        }
    }

    fn undo_file(&self, _alloc: Global, name: &str) -> Result<Option<Vec<u8>>, FolderError> {
        match fs::read(self.rt, name) {
            Ok(bytes) => Ok(Some(bytes)),
            Err(error) if error.kind() == ErrorKind::NotFound => Ok(None),
            Err(error) => Err(undo_fault_of(error)),
        }
    }

    fn keep(&self, alloc: Global, name: &str, text: &[u8]) -> Result<(), FolderError> {
        match write_new_file(self.rt, alloc, name, text) {
            Ok(()) => Ok(()),
            Err(error) => Err(undo_fault_of(error)),
        }
    }
}

/// Returns why a spool couldn't be opened.
fn open_fault_of(error: std::io::Error) -> OpenError {
    match error.kind() {
        ErrorKind::OutOfMemory => OpenError::NoMem,
        ErrorKind::NotFound | ErrorKind::NotADirectory => OpenError::Missing,
        ErrorKind::AlreadyExists => OpenError::Exists,
        ErrorKind::WouldBlock => OpenError::Busy,
        ErrorKind::InvalidData => OpenError::Damaged,
        _ => OpenError::Failed,
    }
}

/// Returns why folders couldn't be opened to be watched.
fn watched_fault_of(error: std::io::Error) -> OpenError {
    match error.kind() {
        ErrorKind::OutOfMemory => OpenError::NoMem,
        ErrorKind::NotFound | ErrorKind::NotADirectory => OpenError::NoFolder,
        _ => OpenError::Failed,
    }
}

/// Returns a list of the same paths.
fn copies_of(alloc: Global, paths: &[Path]) -> Result<Vec<Path>, OpenError> {
    let mut copies = Vec::new(alloc);
    for path in paths {
        let Ok(copy) = path.copy() else {
            return Err(OpenError::NoMem);
        };
        let Ok(()) = copies.push(copy) else {
            return Err(OpenError::NoMem);
        };
    }
    Ok(copies)
}

impl<'a> Spools for Files<'a> {
    type Kept = DiskSpool<'a>;

    type Seen = DiskWatched<'a>;

    type Source = DiskSource<'a>;

    ghost spools = { λ _. None };

    fn sent(&self, alloc: Global) -> Result<Vec<u8>, OpenError> {
        let mut sent = Vec::new(alloc);
        let mut input = self.rt.stdin().take(SENT_LIMIT as u64 + 1);
        match input.read_to_end(&mut sent) {
            Ok(_) => Ok(sent),
            Err(error) => Err(open_fault_of(error)),
        }
    }

    fn sender(&self) -> Result<Option<u32>, OpenError> {
        // `sudo` sets it, whatever the caller's environment has.
        match env::var(self.rt, "SUDO_UID") {
            Ok(user) => match user.as_str().parse() {
                Ok(user) => Ok(Some(user)),
                Err(_) => Err(OpenError::Failed),
            },
            Err(_) => Ok(None),
        }
    }

    fn open_spool(
        &self,
        alloc: Global,
        name: &str,
    ) -> Result<OpenSpool<Self::Kept, Self::Seen>, OpenError> {
        let spool = match DiskSpool::open(self.rt, name) {
            Ok(spool) => spool,
            Err(error) => return Err(open_fault_of(error)),
        };
        let folders = match spool.folders(alloc) {
            Ok(folders) => folders,
            Err(error) => return Err(open_fault_of(error)),
        };
        if let Err(error) = spool.note_unseen(folders.as_slice()) {
            return Err(open_fault_of(error));
        }
        match DiskWatched::open(self.rt, folders) {
            Ok(watched) => Ok(OpenSpool { spool, watched }),
            Err(error) => Err(watched_fault_of(error)),
        }
    }

    fn spool_source(&self, _alloc: Global, name: &str) -> Result<Self::Source, OpenError> {
        match DiskSource::open(self.rt, name) {
            Ok(source) => Ok(source),
            Err(error) => Err(open_fault_of(error)),
        }
    }

    fn folders_of(&self, _alloc: Global, name: &str) -> Result<Vec<Path>, OpenError> {
        match watched_folders(self.rt, name) {
            Ok(folders) => Ok(folders),
            Err(error) => Err(open_fault_of(error)),
        }
    }

    fn unseen_of(&self, _alloc: Global, name: &str) -> Result<Vec<u8>, OpenError> {
        match unseen_rows(self.rt, name) {
            Ok(rows) => Ok(rows),
            Err(error) => Err(open_fault_of(error)),
        }
    }

    fn make_spool(
        &self,
        alloc: Global,
        name: &str,
        folders: &[Path],
    ) -> Result<OpenSpool<Self::Kept, Self::Seen>, OpenError> {
        // A spool is made only for folders that are there.
        let watched = match DiskWatched::open(self.rt, copies_of(alloc, folders)?) {
            Ok(watched) => watched,
            Err(error) => return Err(watched_fault_of(error)),
        };
        let spool = match DiskSpool::create(self.rt, name, folders) {
            Ok(spool) => spool,
            Err(error) => return Err(open_fault_of(error)),
        };
        match spool.note_unseen(folders) {
            Ok(()) => Ok(OpenSpool { spool, watched }),
            Err(error) => Err(open_fault_of(error)),
        }
    }
}

impl Files<'_> {
    /// Says on standard error what is done, in place of what is said there. If standard error takes
    /// nothing, nobody is told.
    fn tell(&self, doing: &str, count: usize, what: &str) {
        let mut error = self.rt.stderr();
        let _ = write!(error, "{CLEAR}casebook: {doing} {count} {what}");
        self.has_told.set(true);
    }
}

impl Progress for Files<'_> {
    fn begin(&self, step: Step) {
        if !self.tells {
            return;
        }
        match step {
            Step::Reading(bytes) if bytes >= LONG_LOG => {
                self.tell("reading", bytes / 1_000_000, "MB");
            }
            Step::Repairing(lines) if lines >= MANY_LINES => {
                self.tell("repairing", lines, "lines");
            }
            Step::Showing(lines) if lines >= MANY_LINES => {
                self.tell("comparing", lines, "lines");
            }
            Step::Writing if self.has_told.get() => {
                let mut error = self.rt.stderr();
                let _ = write!(error, "{CLEAR}");
            }
            _ => {}
        }
    }

    fn remark(&self, remark: &SafeLine) {
        // If standard error takes nothing, nobody is told.
        let _ = writeln!(self.rt.stderr(), "casebook: {}", remark.as_str());
    }
}

/// Writes the message of an exit on standard error, and returns the exit's status.
fn end(rt: &HostRuntime, exit: Exit<'_>) -> ExitCode {
    // If standard error takes nothing, the status is the same.
    if let Ok(line) = exit.message(rt.alloc()) {
        if !line.as_str().is_empty() {
            let _ = writeln!(rt.stderr(), "{}", line.as_str());
        }
    }
    ExitCode::from(exit.status())
}

/// Returns the words of the command line.
fn words_of(rt: &HostRuntime) -> Result<Vec<String>, Stop<'static>> {
    match env::args(rt) {
        Ok(args) => match args.collect(rt.alloc()) {
            Ok(words) => Ok(words),
            Err(_) => Err(Stop::OutOfMemory),
        },
        Err(e) if e.kind() == ErrorKind::OutOfMemory => Err(Stop::OutOfMemory),
        Err(_) => Err(Stop::BadWords(Problem::NotText)),
    }
}

fn main(rt: HostRuntime) -> ExitCode {
    let words = match words_of(&rt) {
        Ok(words) => words,
        Err(stop) => return end(&rt, Exit::Stopped(stop)),
    };
    let files = Files {
        rt: &rt,
        tells: is_terminal(&rt, "/proc/self/fd/2"),
        has_told: Cell::new(false),
    };
    let colours = is_terminal(&rt, "/proc/self/fd/1") && !is_plain(&rt);
    let mut output = Output::new(rt.stdout());
    let exit = run_with(&rt, words.as_slice(), &files, colours, &mut output);
    end(&rt, exit)
}
