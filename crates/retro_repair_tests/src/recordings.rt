//! Recordings of lines that two sessions type, and of logs.
use retro_keep::{Recording, Script, keep_alone};
use retro_log::{read_log, read_script};
use retro_rows::{fail, script_of};
use std::alloc::Global;
use std::test::Fail;

/// Reads the script of a document. Fails if the document is refused.
fn script(alloc: Global, document: &str) -> Result<Script, Fail> {
    match read_script(alloc, document.as_bytes()) {
        Ok(script) => Ok(script),
        Err(_) => fail("refused"),
    }
}

/// Returns the recording of the script that `script_of` writes for these lines.
pub fn recording(alloc: Global, entries: &str, lines: &str) -> Result<Recording, Fail> {
    let document = script_of(alloc, entries, lines)?;
    let script = script(alloc, &document)?;
    Ok(keep_alone(alloc, &script)?)
}

/// Returns the recording of a log. Fails if the log is refused.
pub fn recording_of_log(alloc: Global, log: &str) -> Result<Recording, Fail> {
    match read_log(alloc, log.as_bytes()) {
        Ok(recording) => Ok(recording),
        Err(_) => fail("refused"),
    }
}
