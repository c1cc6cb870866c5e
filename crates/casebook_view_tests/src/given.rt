//! What rows are given: recordings, edits and repairs.
use casebook_view::{Seen, Source};
use retro_keep::{Edit, Recording, Script, keep_alone};
use retro_log::{read_log, read_script};
use retro_redo::{Repair, repair_alone};
use retro_rows::{document, fail, numbered, numbers};
use retro_tree::Text;
use std::alloc::Global;
use std::test::Fail;

/// Reads a script.
fn script_of(alloc: Global, text: &str) -> Result<Script, Fail> {
    match read_script(alloc, text.as_bytes()) {
        Ok(script) => Ok(script),
        Err(_) => fail("the script is refused"),
    }
}

/// Returns the recording of a script.
fn recording_of_script(alloc: Global, text: &str) -> Result<Recording, Fail> {
    let script = script_of(alloc, text)?;
    Ok(keep_alone(alloc, &script)?)
}

/// Returns the recording that a log says.
fn recording_of_log(alloc: Global, text: &str) -> Result<Recording, Fail> {
    match read_log(alloc, text.as_bytes()) {
        Ok(recording) => Ok(recording),
        Err(_) => fail("the log is refused"),
    }
}

/// Returns the recording of a field: of the script or the log that it names or is.
pub fn recording_of(alloc: Global, field: &str) -> Result<Recording, Fail> {
    let text = document(field);
    if text.starts_with("{\"log\"") {
        recording_of_log(alloc, text)
    } else {
        recording_of_script(alloc, text)
    }
}

/// Returns the edits of a list: numbers of lines that are cancelled, and numbers with a text.
pub fn edits_of(alloc: Global, list: &str) -> Result<Vec<Edit>, Fail> {
    let mut edits = Vec::new(alloc);
    for (number, line) in numbered(alloc, list)? {
        edits.push(match line {
            None => Edit::Cancel(number),
            Some(line) => Edit::Replace(number, Text::of(line)),
        })?;
    }
    Ok(edits)
}

/// Returns the numbers of observed lines, which spaces separate, or no numbers for `none`.
pub fn observed_of(alloc: Global, list: &str) -> Result<Vec<u32>, Fail> {
    if list == "none" {
        return Ok(Vec::new(alloc));
    }
    numbers(alloc, list)
}

/// Returns the repair by edits.
pub fn repair_of(alloc: Global, recording: &Recording, edits: &[Edit]) -> Result<Repair, Fail> {
    match repair_alone(alloc, recording, edits) {
        Ok(repair) => Ok(repair),
        Err(_) => fail("the edits are refused"),
    }
}

/// Returns that a recorder saw the lines, of which these stand as they were observed.
pub fn seen_source(observed: &[u32]) -> Source<'_> {
    Source::Seen(Seen {
        observed,
        overlapping: &[],
        outside: &[],
        incomplete: &[],
        unseen: &[],
    })
}
