//! Documents and folders in memory, and runs of the program on them.
ghost use Rattle.std.specs.Prelude.{None};

use crate::cases::case_document;
use crate::recorder::RECORD;
use crate::streams::stream;
use casebook_cli::{
    Documents, Exit, Hindrance, NoMem, Output, Progress, ReadFault, Step, run_with,
};
use casebook_folder::{Attributes, Entry, FolderError, Found, Memory as MemoryFolder, Obstacle};
use casebook_folder_cli::{Folders, Mounts, Owner};
use casebook_restore::PlacedFolder;
use casebook_snapshot::{Child, Item, Memory as MemoryListing, MemoryEntry, Reason, SnapshotError};
use casebook_text::SafeLine;
use retro_path::{Bytes, Path};
use retro_rows::{fail, text, utf8};
use std::alloc::{AllocGlobal, Global};
use std::cell::Cell;
use std::str::from_utf8;
use std::test::Fail;
use std::thread::Threads;

/// A log of two lines: session 2 makes a file, and session 1 shows it.
const LOG: &str = r#"{"from":1,"lines":[
[1,2,"echo fig > /f",[["canwrite","/f",0,"yes"],["put","/f",["f",""]],["canwrite","/f",4,"yes"],
["grow","/f","6669670a"],["setstatus",0]],""],
[2,1,"cat /f",[["bytes","/f",["f","6669670a"]],["setstatus",0]],"6669670a"]],
"log":2,"sessions":[[1,"/",0,[]],[2,"/",0,[]]],"tree":[]}"#;

/// The same log, but for what the second line is noted to have read and printed.
const FORGED: &str = r#"{"from":1,"lines":[
[1,2,"echo fig > /f",[["canwrite","/f",0,"yes"],["put","/f",["f",""]],["canwrite","/f",4,"yes"],
["grow","/f","6669670a"],["setstatus",0]],""],
[2,1,"cat /f",[["bytes","/f",["f","706c756d0a"]],["setstatus",0]],"706c756d0a"]],
"log":2,"sessions":[[1,"/",0,[]],[2,"/",0,[]]],"tree":[]}"#;

/// A log of two lines, of which the first one isn't understood.
const ODD: &str = r#"{"from":1,"lines":[
[1,1,"ls",[["setstatus",127]],"73683a206c733a206e6f7420666f756e640a"],[2,1,"echo a",[["setstatus",0]],"610a"]],
"log":2,"sessions":[[1,"/",0,[]]],"tree":[]}"#;

/// A log that begins at line 7, and has one line, which shows a file of two lines.
const LATER: &str = r#"{"from":7,"lines":[
[8,1,"cat /f",[["bytes","/f",["f","6669670a706c756d0a"]],["setstatus",0]],"6669670a706c756d0a"]],
"log":2,"sessions":[[1,"/",0,[]]],"tree":[["/f","6669670a706c756d0a"]]}"#;

/// A log of two lines that write to `/m` and `/l`, at which the folder `folder` has links.
const NAMED: &str = r#"{"from":1,"lines":[
[1,1,"mkdir /m",[["kind","/m","missing"],["kind","/","dir"],["put","/m",["d"]],["setstatus",0]],""],
[2,1,"echo a > /l",[["canwrite","/l",0,"yes"],["put","/l",["f",""]],["canwrite","/l",2,"yes"],
["grow","/l","610a"],["setstatus",0]],""]],
"log":2,"sessions":[[1,"/",0,[]]],"tree":[["/f","6669670a"]]}"#;

/// The documents and folders that there are, what standard input has and who sent it, the last remark
/// that was made, and the undo file that was written.
#[derive(Drop)]
pub(crate) struct Memory {
    alloc: Global,
    pub(crate) input: &'static [u8],
    pub(crate) sender: Option<u32>,
    remark: Cell<Option<String>>,
    kept: Cell<Option<String>>,
}

impl Memory {
    /// Returns the documents and folders, and a log as standard input. No remark was made yet, and no
    /// undo file written.
    pub(crate) fn new(alloc: Global) -> Memory {
        Memory {
            alloc,
            input: LOG.as_bytes(),
            sender: None,
            remark: Cell::new(None),
            kept: Cell::new(None),
        }
    }
}

/// Returns the bytes of a document.
fn bytes_of(name: &str) -> Option<&'static [u8]> {
    match name {
        "log" | "\u{1B}[2J" => Some(LOG.as_bytes()),
        "forged" => Some(FORGED.as_bytes()),
        "odd" => Some(ODD.as_bytes()),
        "named" => Some(NAMED.as_bytes()),
        "about" => Some(
            br#"{"about":1,"sessions":[[1,"ann"],[2,"guest"]],"lines":[[1,1746528600],[2,1746528720]]}"#,
        ),
        "later" => Some(LATER.as_bytes()),
        "spaced" => Some(br#"{"about":1,"sessions":[[1,"Ann B"],[2,"guest"]]}"#),
        "seconds" => Some(br#"{"about":1,"lines":[[1,1746528630],[2,1746528779]]}"#),
        "twice" => Some(br#"{"about":1,"lines":[[1,1746528600],[1,1746528720]]}"#),
        "half" => Some(br#"{"about":1,"lines":[[2,1746528720]]}"#),
        "late" => Some(br#"{"about":1,"lines":[[2,999999999999999]]}"#),
        "rows" => Some(br#"{"about":1,"sessions":[[1,"ann"],["guest"]]}"#),
        "list" => Some(b"# the guest\n 2:all \n"),
        "list\u{1B}" => Some(b"\xFF"),
        "no\u{1B}json" => Some(b"{"),
        "fig" => Some(
            br#"{"at":"/","rows":[["/f",["file","706c756d0a",420,7,8],["file","6669670a",420,7,8]]],"undo":1}"#,
        ),
        "plum" => Some(
            br#"{"at":"/","rows":[["/f",["file","610a",420,7,8],["file","706c756d0a",420,7,8]]],"undo":1}"#,
        ),
        "made" => Some(br#"{"at":"/","rows":[["/f",null,["file","6669670a",420,7,8]]],"undo":1}"#),
        "gone" => Some(br#"{"at":"/","rows":[["/f",["file","6669670a",420,7,8],null]],"undo":1}"#),
        "placed" => Some(
            br#"{"at":"/srv","rows":[["/f",["file","6669670a",420,7,8],null]],"undo":1}"#,
        ),
        "taken" => Some(
            br#"{"attributes":[["/",420,7,8],["/d",420,7,8],["/f",420,7,8]],"root":"folder",
"skipped":[["/l","link"],["/m","link"]],"snapshot":1,"taken":"2025-05-07T17:00:00Z",
"tree":[["/d"],["/f","6669670a"]]}"#,
        ),
        "ours" => Some(
            br#"{"attributes":[["/",420,7,8],["/f",420,7]],"root":"folder","skipped":[],"snapshot":1,
"taken":"2025-05-07T17:00:00Z","tree":[["/f","6669670a"]]}"#,
        ),
        "users" => Some(b"# who\n1\t/\tA=b c\n2\t/d\n"),
        "first" => Some(b"1\t/"),
        "typed" => Some(b"2\techo fig > g\n\n1\tgrep a\\\\b f\n"),
        "script" => Some(br#"{"script":1,"tree":[],"sessions":[],"lines":[]}"#),
        "torn" => Some(br#"{"script":1,"tree":[],"sessions":[],"lines":[[1,1,"ls"]]}"#),
        "shape" => Some(br#"{"from":1,"lines":5,"log":2,"sessions":[],"tree":[]}"#),
        _ => case_document(name),
    }
}

impl Documents for Memory {
    ghost bytes_of = { λ _. None };

    fn read(&self, alloc: Global, name: &str) -> Result<Vec<u8>, ReadFault> {
        match bytes_of(name) {
            Some(bytes) => Ok(Vec::from_slice(alloc, bytes)?),
            None if name == "-" => Ok(Vec::from_slice(alloc, self.input)?),
            None => Err(ReadFault::Unreadable(Hindrance::Missing)),
        }
    }
}

/// Returns a directory's entry of a listing.
fn entry(alloc: Global, parent: &Path, name: &[u8], item: Item) -> Result<MemoryEntry, NoMem> {
    let child = Child {
        parent: parent.copy()?,
        name: Vec::from_slice(alloc, name)?,
    };
    Ok(MemoryEntry { child, item })
}

/// The mode and owner of what the folder holds.
const OURS: Attributes = Attributes {
    mode: 0o644,
    uid: 7,
    gid: 8,
};

/// Returns the folder `folder`: an empty directory `d`, the file `f`, two links, and a directory
/// whose name isn't UTF-8. If mounts are entered, it also has the file `n`. Every other name is that
/// of a file.
fn folder(alloc: Global, name: &str, mounts: Mounts) -> Result<MemoryListing, NoMem> {
    let mut entries = Vec::new(alloc);
    if name != "folder" {
        let file = Item::File(Bytes::new(alloc), OURS);
        return Ok(MemoryListing::new(alloc, file, entries));
    }
    let root = Path::root(alloc);
    let fig = Bytes::of(Vec::from_slice(alloc, b"fig\n")?);
    entries.push(entry(alloc, &root, b"\xFF", Item::Dir(OURS))?)?;
    entries.push(entry(alloc, &root, b"m", Item::Barred(Reason::Link))?)?;
    entries.push(entry(alloc, &root, b"l", Item::Barred(Reason::Link))?)?;
    entries.push(entry(alloc, &root, b"f", Item::File(fig, OURS))?)?;
    entries.push(entry(alloc, &root, b"d", Item::Dir(OURS))?)?;
    if mounts == Mounts::Entered {
        let empty = Bytes::new(alloc);
        entries.push(entry(alloc, &root, b"n", Item::File(empty, OURS))?)?;
    }
    Ok(MemoryListing::new(alloc, Item::Dir(OURS), entries))
}

/// Returns an entry of a folder that is opened to be changed.
fn held(alloc: Global, name: &str, found: Found) -> Result<Entry, NoMem> {
    let path = match Path::of_names(alloc, &[name])? {
        Some(path) => path,
        None => Path::root(alloc),
    };
    Ok(Entry { path, found })
}

/// Returns what the folder with a name has that is opened to be changed.
fn entries_of(alloc: Global, name: &str) -> Result<Option<Vec<Entry>>, NoMem> {
    let mut entries = Vec::new(alloc);
    match name {
        "folder" | "stuck" => {
            let fig = Bytes::of(Vec::from_slice(alloc, b"fig\n")?);
            entries.push(held(alloc, "d", Found::Dir(OURS))?)?;
            entries.push(held(alloc, "f", Found::File(fig, OURS))?)?;
            entries.push(held(alloc, "l", Found::Blocked(Obstacle::Link))?)?;
            entries.push(held(alloc, "m", Found::Blocked(Obstacle::Link))?)?;
        }
        "empty" => {}
        _ => return Ok(None),
    }
    Ok(Some(entries))
}

impl Folders for Memory {
    type Listed = MemoryListing;

    type Opened = PlacedFolder<MemoryFolder>;

    ghost holds = { λ _. None };

    fn list(
        &self,
        alloc: Global,
        name: &str,
        mounts: Mounts,
    ) -> Result<MemoryListing, SnapshotError> {
        if name == "locked" {
            return Err(SnapshotError::Failed);
        }
        Ok(folder(alloc, name, mounts)?)
    }

    fn file(&self, alloc: Global, name: &str) -> Result<Vec<u8>, SnapshotError> {
        match (name, bytes_of(name)) {
            ("stream", _) => Ok(stream(alloc, 0)?),
            ("torn stream", _) => Ok(stream(alloc, 8)?),
            ("-", _) => Ok(Vec::from_slice(alloc, self.input)?),
            (_, Some(bytes)) => Ok(Vec::from_slice(alloc, bytes)?),
            (_, None) => Err(SnapshotError::Failed),
        }
    }

    fn now(&self) -> Result<i64, SnapshotError> {
        Ok(1746637200)
    }

    fn open(&self, alloc: Global, name: &str, at: &Path) -> Result<Self::Opened, SnapshotError> {
        if name == "locked" {
            return Err(SnapshotError::Failed);
        }
        let Some(entries) = entries_of(alloc, name)? else {
            return Err(SnapshotError::NotADirectory);
        };
        let mut folder = MemoryFolder::new(alloc, entries);
        if name == "stuck" {
            folder.stop_after(0, false);
        }
        Ok(PlacedFolder::new(alloc, folder, at.copy()?))
    }

    fn owner(&self) -> Result<Owner, SnapshotError> {
        Ok(Owner { uid: 5, gid: 6 })
    }

    fn undo_file(&self, alloc: Global, name: &str) -> Result<Option<Vec<u8>>, FolderError> {
        if name == "locked" {
            return Err(FolderError::Failed);
        }
        match bytes_of(name) {
            Some(bytes) => Ok(Some(Vec::from_slice(alloc, bytes)?)),
            None => Ok(None),
        }
    }

    fn keep(&self, alloc: Global, _name: &str, bytes: &[u8]) -> Result<(), FolderError> {
        let Ok(kept) = from_utf8(bytes) else {
            return Err(FolderError::Failed);
        };
        self.kept.set(Some(String::from_str(alloc, kept)?));
        Ok(())
    }
}

impl Progress for Memory {
    fn begin(&self, _step: Step) {}

    fn remark(&self, remark: &SafeLine) {
        if let Ok(line) = text(self.alloc, remark.as_str()) {
            self.remark.set(Some(line));
        }
    }
}

/// Returns the words of a command line. The program's name isn't among those that are given. `_`
/// stands for a space in a word.
pub(crate) fn words(alloc: Global, given: &str) -> Result<Vec<String>, NoMem> {
    let mut words = Vec::new(alloc);
    words.push(text(alloc, "casebook")?)?;
    if given.is_empty() {
        return Ok(words);
    }
    for word in given.split(' ') {
        words.push(word.replace(alloc, "_", " ")?)?;
    }
    Ok(words)
}

/// Runs the program on words.
pub(crate) fn run<'a, T: Threads + Sync + AllocGlobal>(
    rt: &T,
    words: &'a [String],
    out: &mut Vec<u8>,
) -> Exit<'a> {
    let memory = Memory::new(rt.alloc());
    run_with(rt, words, &memory, false, &mut Output::new(out))
}

/// Returns what the program writes if it is done.
pub(crate) fn written<T: Threads + Sync + AllocGlobal>(
    rt: &T,
    given: &str,
) -> Result<String, Fail> {
    let words = words(rt.alloc(), given)?;
    let mut out = Vec::new(rt.alloc());
    match run(rt, words.as_slice(), &mut out) {
        Exit::Done => Ok(text(rt.alloc(), utf8(out.as_slice())?)?),
        _ => fail("the program isn't done"),
    }
}

/// Returns what the program writes to a terminal that has colours, if it is done.
pub(crate) fn coloured<T: Threads + Sync + AllocGlobal>(
    rt: &T,
    given: &str,
) -> Result<String, Fail> {
    let words = words(rt.alloc(), given)?;
    let mut out = Vec::new(rt.alloc());
    let mut output = Output::new(&mut out);
    let memory = Memory::new(rt.alloc());
    match run_with(rt, words.as_slice(), &memory, true, &mut output) {
        Exit::Done => Ok(text(rt.alloc(), utf8(out.as_slice())?)?),
        _ => fail("the program isn't done"),
    }
}

/// Returns the last remark that the program makes.
pub(crate) fn remarked<T: Threads + Sync + AllocGlobal>(
    rt: &T,
    given: &str,
) -> Result<String, Fail> {
    let words = words(rt.alloc(), given)?;
    let memory = Memory::new(rt.alloc());
    let mut out = Vec::new(rt.alloc());
    let mut output = Output::new(&mut out);
    let exit = run_with(rt, words.as_slice(), &memory, false, &mut output);
    match (exit, memory.remark.replace(None)) {
        (Exit::Done, Some(line)) => Ok(line),
        _ => fail("no remark is made"),
    }
}

/// Returns the undo file that the program writes, or `nothing`.
pub(crate) fn kept<T: Threads + Sync + AllocGlobal>(rt: &T, given: &str) -> Result<String, Fail> {
    let words = words(rt.alloc(), given)?;
    let memory = Memory::new(rt.alloc());
    let mut out = Vec::new(rt.alloc());
    run_with(
        rt,
        words.as_slice(),
        &memory,
        false,
        &mut Output::new(&mut out),
    );
    match memory.kept.replace(None) {
        Some(text) => Ok(text),
        None => Ok(text(rt.alloc(), "nothing")?),
    }
}

/// Returns the status with which the program ends, and what it writes.
pub(crate) fn ended<T: Threads + Sync + AllocGlobal>(rt: &T, given: &str) -> Result<String, Fail> {
    let words = words(rt.alloc(), given)?;
    let mut out = Vec::new(rt.alloc());
    let status = run(rt, words.as_slice(), &mut out).status();
    Ok(format!(in rt.alloc(); "{status} {}", utf8(out.as_slice())?)?)
}

/// Returns the status with which the program ends, and its message. Nothing must be written.
pub(crate) fn refused<T: Threads + Sync + AllocGlobal>(
    rt: &T,
    given: &str,
) -> Result<String, Fail> {
    let words = words(rt.alloc(), given)?;
    let mut out = Vec::new(rt.alloc());
    let exit = run(rt, words.as_slice(), &mut out);
    if !out.is_empty() {
        return fail("something is written");
    }
    let line = exit.message(rt.alloc())?;
    Ok(format!(in rt.alloc(); "{} {}", exit.status(), line.as_str())?)
}

/// Returns the status with which the program ends that a user sends the record of user 0, and what it
/// writes or says.
pub(crate) fn sent<T: Threads + Sync + AllocGlobal>(
    rt: &T,
    given: &str,
    sender: u32,
) -> Result<String, Fail> {
    let words = words(rt.alloc(), given)?;
    let mut memory = Memory::new(rt.alloc());
    memory.input = RECORD;
    memory.sender = Some(sender);
    let mut out = Vec::new(rt.alloc());
    let mut output = Output::new(&mut out);
    let exit = run_with(rt, words.as_slice(), &memory, false, &mut output);
    let line = exit.message(rt.alloc())?;
    let written = utf8(out.as_slice())?;
    Ok(format!(in rt.alloc(); "{} {written}{}", exit.status(), line.as_str())?)
}
