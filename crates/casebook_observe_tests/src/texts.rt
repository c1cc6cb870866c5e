//! Notes and records as texts.
use casebook_record::{Begin, End, Event, Record, Start};
use casebook_spool::{Content, Holds, Item, Note, Unkept};
use casebook_watch::{FileTime, Kind, Sight, SightChange};
use retro_path::{Bytes, NoMem};
use retro_rows::text;
use std::alloc::Global;

/// Returns bytes as a text in brackets, or their hexadecimal digits if they aren't UTF-8.
pub fn bytes_text(alloc: Global, bytes: &[u8]) -> Result<String, NoMem> {
    match str::from_utf8(bytes) {
        Ok(text) => format!(in alloc; "[{text}]"),
        Err(_) => format!(in alloc; "hex {}", hex::encode(alloc, bytes)?.as_str()),
    }
}

/// Returns a text, or the word for none.
fn text_or(alloc: Global, bytes: &Option<Bytes>, none: &str) -> Result<String, NoMem> {
    match bytes {
        Some(bytes) => bytes_text(alloc, bytes.as_slice()),
        None => text(alloc, none),
    }
}

/// Returns the word of a kind.
fn kind_text(kind: Kind) -> &'static str {
    match kind {
        Kind::Dir => "dir",
        Kind::File => "file",
        Kind::Link => "link",
        Kind::Other => "other",
    }
}

/// Returns a time as its second, a point and its nanosecond.
fn time_text(alloc: Global, time: FileTime) -> Result<String, NoMem> {
    format!(in alloc; "{}.{}", time.second, time.nanosecond)
}

/// Returns when something was read, written and changed.
fn times_text(alloc: Global, sight: &Sight) -> Result<String, NoMem> {
    let read = time_text(alloc, sight.read)?;
    let written = time_text(alloc, sight.written)?;
    let changed = time_text(alloc, sight.changed)?;
    format!(in alloc;
        "{} {} {}",
        read.as_str(),
        written.as_str(),
        changed.as_str()
    )
}

/// Returns what a look saw at a path: kind, path, mode, owner and group, size, number, and when it
/// was read, written and changed.
fn sight_text(alloc: Global, path: &str, sight: &Sight) -> Result<String, NoMem> {
    let attributes = sight.attributes;
    let owners = format!(in alloc; "{} {}", attributes.uid, attributes.gid)?;
    let times = times_text(alloc, sight)?;
    format!(in alloc;
        "{} [{path}] {:o} {}, {} {}, {}",
        kind_text(sight.kind),
        attributes.mode,
        owners.as_str(),
        sight.size,
        sight.number,
        times.as_str()
    )
}

/// Returns the sight that a path has since a look.
fn change_text(alloc: Global, change: &SightChange) -> Result<String, NoMem> {
    let path = change.path.as_str();
    match &change.sight {
        Some(sight) => sight_text(alloc, path, sight),
        None => format!(in alloc; "gone [{path}]"),
    }
}

/// Returns why bytes aren't kept.
fn unkept_text(why: Unkept) -> &'static str {
    match why {
        Unkept::TooLarge => "too large",
        Unkept::Unreadable => "not readable",
        Unkept::Changing => "always changing",
    }
}

/// Returns what a file or a link holds.
fn holds_text(alloc: Global, holds: &Holds) -> Result<String, NoMem> {
    let path = holds.path.as_str();
    match &holds.content {
        Content::Kept(digest) => {
            let digits = hex::encode(alloc, digest.bytes)?;
            format!(in alloc; "kept [{path}] {}", digits.as_str())
        }
        Content::Target(target) => {
            let target = bytes_text(alloc, target.as_slice())?;
            format!(in alloc; "leads [{path}] {}", target.as_str())
        }
        Content::Unkept(why) => format!(in alloc; "unkept [{path}] {}", unkept_text(*why)),
    }
}

/// Returns a note as a text.
pub fn note_text(alloc: Global, note: &Note) -> Result<String, NoMem> {
    match note {
        Note::Sight(change) => change_text(alloc, change),
        Note::Holds(holds) => holds_text(alloc, holds),
        Note::Looked(looked) => {
            let read = time_text(alloc, looked.read)?;
            format!(in alloc; "looked [{}] {}", looked.path.as_str(), read.as_str())
        }
    }
}

/// Returns a start as a text.
fn start_text(alloc: Global, start: &Start) -> Result<String, NoMem> {
    let parent = match &start.parent {
        Some(name) => bytes_text(alloc, name.as_slice())?,
        None => text(alloc, "none")?,
    };
    let terminal = bytes_text(alloc, start.terminal.as_slice())?;
    let login = bytes_text(alloc, start.login.as_slice())?;
    let connection = bytes_text(alloc, start.connection.as_slice())?;
    let variables = text_or(alloc, &start.variables, "same")?;
    let shell = text_or(alloc, &start.shell, "same")?;
    format!(in alloc;
        "start {} {} {:04o} {} {} {} {}",
        parent.as_str(),
        terminal.as_str(),
        start.umask.bits(),
        login.as_str(),
        connection.as_str(),
        variables.as_str(),
        shell.as_str()
    )
}

/// Returns a beginning as a text.
fn begin_text(alloc: Global, begin: &Begin) -> Result<String, NoMem> {
    let line = text_or(alloc, &begin.line, "hidden")?;
    format!(in alloc; "begin {} {}", begin.number.get(), line.as_str())
}

/// Returns an end as a text.
fn end_text(alloc: Global, end: &End) -> Result<String, NoMem> {
    let line = text_or(alloc, &end.line, "hidden")?;
    let variables = text_or(alloc, &end.variables, "same")?;
    let shell = text_or(alloc, &end.shell, "same")?;
    let mut statuses = String::new(alloc);
    for status in end.statuses.as_slice() {
        statuses.push_str(format!(in alloc; " {status}")?.as_str())?;
    }
    format!(in alloc;
        "end {} status {} of{}: {} {} {}",
        end.number.get(),
        end.status,
        statuses.as_str(),
        line.as_str(),
        variables.as_str(),
        shell.as_str()
    )
}

/// Returns an event as a text.
fn event_text(alloc: Global, event: &Event) -> Result<String, NoMem> {
    match event {
        Event::Start(start) => start_text(alloc, start),
        Event::Begin(begin) => begin_text(alloc, begin),
        Event::End(end) => end_text(alloc, end),
        Event::Exit(exit) => format!(in alloc; "exit {} {}", exit.lines, exit.status),
    }
}

/// Returns a record as a text.
fn record_text(alloc: Global, record: &Record) -> Result<String, NoMem> {
    let session = bytes_text(alloc, record.session.as_slice())?;
    let directory = bytes_text(alloc, record.directory.as_slice())?;
    let event = event_text(alloc, &record.event)?;
    format!(in alloc;
        "{} at {} user {} in {}: {}",
        session.as_str(),
        record.at.get(),
        record.user,
        directory.as_str(),
        event.as_str()
    )
}

/// Returns a row of the file `lines` as a text.
pub fn item_text(alloc: Global, item: &Item) -> Result<String, NoMem> {
    match item {
        Item::Note(note) => note_text(alloc, note),
        Item::Record(record) => record_text(alloc, record),
    }
}

/// Appends a text to a list, which `; ` separates.
pub fn push_item(list: &mut String, item: &str) -> Result<(), NoMem> {
    if !list.is_empty() {
        list.push_str("; ")?;
    }
    list.push_str(item)
}

/// Returns a list as it is, or `nothing` for an empty one.
pub fn list_or_nothing(alloc: Global, list: String) -> Result<String, NoMem> {
    if list.is_empty() {
        return text(alloc, "nothing");
    }
    Ok(list)
}
