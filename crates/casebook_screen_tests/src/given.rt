//! What rows are given: recordings, edits, repairs and labels.
use crate::logs::named;
use casebook_about::Labels;
use casebook_view::{Seen, Source};
use retro_keep::{Edit, Recording, Script, keep_alone};
use retro_log::{read_log, read_script};
use retro_redo::{Repair, repair_alone};
use retro_rows::{fail, numbered, numbers};
use retro_tree::Text;
use std::alloc::Global;
use std::test::Fail;

/// Reads a script.
fn script_of(alloc: Global, text: &str) -> Result<Script, Fail> {
    match read_script(alloc, text.as_bytes()) {
        Ok(script) => Ok(script),
        Err(_) => fail("the script is refused"),
    }
}

/// Returns the recording of a script.
fn recording_of_script(alloc: Global, text: &str) -> Result<Recording, Fail> {
    let script = script_of(alloc, text)?;
    Ok(keep_alone(alloc, &script)?)
}

/// Returns the recording that a log says.
fn recording_of_log(alloc: Global, text: &str) -> Result<Recording, Fail> {
    match read_log(alloc, text.as_bytes()) {
        Ok(recording) => Ok(recording),
        Err(_) => fail("the log is refused"),
    }
}

/// Returns the recording of a field: of the script or the log that it names or is.
pub fn recording_of(alloc: Global, field: &str) -> Result<Recording, Fail> {
    let text = named(field);
    if text.starts_with("{\"log\"") {
        recording_of_log(alloc, text)
    } else {
        recording_of_script(alloc, text)
    }
}

/// Returns the edits of a list: numbers of lines that are cancelled, and numbers with a text.
pub fn edits_of(alloc: Global, list: &str) -> Result<Vec<Edit>, Fail> {
    let mut edits = Vec::new(alloc);
    for (number, line) in numbered(alloc, list)? {
        edits.push(match line {
            None => Edit::Cancel(number),
            Some(line) => Edit::Replace(number, Text::of(line)),
        })?;
    }
    Ok(edits)
}

/// Returns the repair by edits.
pub fn repair_of(alloc: Global, recording: &Recording, edits: &[Edit]) -> Result<Repair, Fail> {
    match repair_alone(alloc, recording, edits) {
        Ok(repair) => Ok(repair),
        Err(_) => fail("the edits are refused"),
    }
}

/// What a recorder says of lines: which were observed, which overlap, and which are changes outside
/// of the recorded sessions. And what it doesn't know: of which sessions lines have no record, and in
/// which folders it isn't seen what lines only read.
#[derive(Drop)]
pub struct SeenLines {
    observed: Vec<u32>,
    overlapping: Vec<u32>,
    outside: Vec<u32>,
    incomplete: Vec<u32>,
    unseen: Vec<Text>,
}

/// Returns the numbers of a list, or no numbers for `none`.
fn numbers_or_none(alloc: Global, list: Option<&str>) -> Result<Vec<u32>, Fail> {
    match list {
        None | Some("none") => Ok(Vec::new(alloc)),
        Some(list) => numbers(alloc, list),
    }
}

/// Returns the folders of a list, or no folders if there is none.
fn folders_or_none(alloc: Global, list: Option<&str>) -> Result<Vec<Text>, Fail> {
    let mut folders = Vec::new(alloc);
    if let Some(list) = list {
        for folder in list.split(' ') {
            folders.push(Text::of(String::from_str(alloc, folder)?))?;
        }
    }
    Ok(folders)
}

/// Returns what a recorder says if a field says that one saw the lines of a log, or `None` if it says
/// something else. `observed 2 4` says that it observed two lines, `observed none` that it observed
/// none, and `observed 2 / 3 4 / 5` also that lines 3 and 4 overlap and that line 5 is nobody's. Two
/// more lists name sessions and folders.
pub fn seen_of(alloc: Global, field: &str) -> Result<Option<SeenLines>, Fail> {
    let Some(("observed", lists)) = field.split_once(' ') else {
        return Ok(None);
    };
    let mut lists = lists.split(" / ");
    Ok(Some(SeenLines {
        observed: numbers_or_none(alloc, lists.next())?,
        overlapping: numbers_or_none(alloc, lists.next())?,
        outside: numbers_or_none(alloc, lists.next())?,
        incomplete: numbers_or_none(alloc, lists.next())?,
        unseen: folders_or_none(alloc, lists.next())?,
    }))
}

/// Returns where lines come from of which a recorder says this, or that they were played.
pub fn source_of(seen: &Option<SeenLines>) -> Source<'_> {
    match seen {
        Some(seen) => Source::Seen(Seen {
            observed: seen.observed.as_slice(),
            overlapping: seen.overlapping.as_slice(),
            outside: seen.outside.as_slice(),
            incomplete: seen.incomplete.as_slice(),
            unseen: seen.unseen.as_slice(),
        }),
        None => Source::Played,
    }
}

/// Adds times of lines.
fn add_times(alloc: Global, labels: &mut Labels, times: &str) -> Result<(), Fail> {
    for (number, time) in numbered(alloc, times)? {
        if let Some(time) = time {
            labels.add_time(number, time)?;
        }
    }
    Ok(())
}

/// Returns labels with names of sessions and times of lines.
pub fn labels_of(alloc: Global, names: &str, times: &str) -> Result<Labels, Fail> {
    let mut labels = Labels::none(alloc);
    for (session, name) in numbered(alloc, names)? {
        if let Some(name) = name {
            labels.add_name(session, name)?;
        }
    }
    add_times(alloc, &mut labels, times)?;
    Ok(labels)
}
