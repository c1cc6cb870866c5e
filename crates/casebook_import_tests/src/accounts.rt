//! Accounts of cases: their lines, edits of them, and repairs as they are shown.
use crate::cases::document;
use casebook_account::{Account, AccountFault, read_account};
use retro_keep::{Edit, Recording};
use retro_redo::{SettledLine, Verdict, repair_alone};
use retro_rows::fail;
use retro_tree::{Ask, Change, Entry, Note, Text};
use std::alloc::Global;
use std::test::Fail;

/// Returns the account of a spool's case.
fn account_of(alloc: Global, first: &str, history: &str) -> Result<Account, Fail> {
    let document = document(alloc, first, history)?;
    match read_account(alloc, document.as_slice()) {
        Ok(account) => Ok(account),
        Err(_) => fail("no account"),
    }
}

/// Returns of each line its number, its session, whether it stands as it was observed, whether it
/// overlaps others, the numbers of its texts and its text, and then the users, the sessions of which
/// lines have no record, and the folders in which it wasn't always seen what lines only read.
pub fn account(alloc: Global, first: &str, history: &str) -> Result<String, Fail> {
    let account = account_of(alloc, first, history)?;
    let Some(machine) = &account.machine else {
        return fail("no machine");
    };
    let mut out = String::new(alloc);
    for line in &machine.lines {
        let kind = match (line.is_observed, line.overlaps) {
            (true, false) => "seen",
            (false, false) => "modelled",
            (true, true) => "seen, overlaps",
            (false, true) => "modelled, overlaps",
        };
        let (number, session, text) = (line.number, line.session, line.text.as_str());
        let (first, end, second) = (line.first, line.end, line.second);
        out.push_str(format!(in alloc;
            "{number} {session} {kind} {first}-{end} at {second} [{text}] "
        )?.as_str())?;
    }
    for user in &machine.users {
        let (session, name) = (user.session, user.user.as_str());
        out.push_str(format!(in alloc; "{session}={name} ")?.as_str())?;
    }
    for number in &machine.incomplete {
        out.push_str(format!(in alloc; "{number}.. ")?.as_str())?;
    }
    for folder in &machine.unseen {
        out.push_str(folder.as_str())?;
        out.push(' ')?;
    }
    Ok(String::from_str(alloc, out.as_str().trim_end())?)
}

/// Appends the paths that notes write, and of what is at `/.casebook` also those that they read.
fn push_notes(alloc: Global, out: &mut String, notes: &[Note]) -> Result<(), Fail> {
    for note in notes {
        let path = match note {
            Note::Made(Change::Put(path, _) | Change::Grow(path, _)) => path,
            Note::Asked(Ask::Kind(path) | Ask::Bytes(path) | Ask::Names(path), _)
                if path.as_str().starts_with("/.casebook") => { path }
            _ => continue,
        };
        out.push_str(format!(in alloc; "{} ", path.as_str())?.as_str())?;
    }
    Ok(())
}

/// Returns the lines of a recording with the paths that they write, and then the paths that are there
/// at its end.
fn recording_text(alloc: Global, recording: &Recording) -> Result<String, Fail> {
    let mut out = String::new(alloc);
    for (number, noted) in recording.lines() {
        let (sid, text) = (noted.sid, noted.text.as_str());
        out.push_str(format!(in alloc; "{number} {sid} [{text}] ")?.as_str())?;
        push_notes(alloc, &mut out, noted.notes.as_slice())?;
    }
    out.push_str("then ")?;
    for (path, entry) in recording.last().tree().iter() {
        out.push_str(path.as_str())?;
        match entry {
            Entry::Dir => out.push_str("/ ")?,
            Entry::File(_) => out.push(' ')?,
        }
    }
    Ok(String::from_str(alloc, out.as_str().trim_end())?)
}

/// Returns a case's recording as it is shown.
pub fn shown(alloc: Global, first: &str, history: &str) -> Result<String, Fail> {
    match account_of(alloc, first, history)?.into_shown(alloc) {
        Ok(account) => recording_text(alloc, &account.recording),
        Err(_) => fail("not shown"),
    }
}

/// Reads edits: `2` leaves out line 2, and `2=text` replaces it.
fn edits_in(alloc: Global, given: &str) -> Result<Vec<Edit>, Fail> {
    let mut edits = Vec::new(alloc);
    for item in given.split(", ") {
        let (number, text) = match item.split_once("=") {
            Some((number, text)) => (number, Some(text)),
            None => (item, None),
        };
        let Ok(number) = number.parse::<u32>() else {
            return fail("no number");
        };
        edits.push(match text {
            Some(text) => Edit::Replace(number, Text::of(String::from_str(alloc, text)?)),
            None => Edit::Cancel(number),
        })?;
    }
    Ok(edits)
}

/// Returns what a repair did with each line.
fn settled_text(alloc: Global, lines: &[SettledLine]) -> Result<String, Fail> {
    let mut out = String::new(alloc);
    for line in lines {
        let number = line.number;
        let verdict = match line.verdict {
            Verdict::Cancelled => "cancelled",
            Verdict::Redone => "redone",
            Verdict::Kept => "kept",
        };
        out.push_str(format!(in alloc; "{number} {verdict}, ")?.as_str())?;
    }
    Ok(out)
}

/// Returns what a repair of a case does with each line, and the repaired recording as it is shown,
/// or which line isn't there.
pub fn repaired(alloc: Global, first: &str, history: &str, edits: &str) -> Result<String, Fail> {
    let account = account_of(alloc, first, history)?;
    let edits = edits_in(alloc, edits)?;
    let texts = match account.text_edits(alloc, edits.as_slice()) {
        Ok(texts) => texts,
        Err(AccountFault::NoLine(number)) => return Ok(format!(in alloc; "no line {number}")?),
        Err(_) => return fail("no edits"),
    };
    let Ok(repair) = repair_alone(alloc, &account.recording, texts.as_slice()) else {
        return fail("no repair");
    };
    let lines = account.shown_lines(alloc, repair.lines)?;
    let settled = settled_text(alloc, lines.as_slice())?;
    let Ok(recording) = account.shown(alloc, repair.recording) else {
        return fail("not shown");
    };
    let shown = recording_text(alloc, &recording)?;
    Ok(format!(in alloc; "{}{}", settled.as_str(), shown.as_str())?)
}
