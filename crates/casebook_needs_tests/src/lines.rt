//! Observed lines, read from texts.
//!
//! What a line did has entries that `, ` separates: `read /f`, `list /d`, `append /f`, `other /f`,
//! and `shell /f` for the file with its session's functions. The text `nothing` has no entries. A
//! text of a line that begins with `hex ` is in hexadecimal digits.
use casebook_needs::Effect;
use retro_path::Path;
use retro_rows::{fail, path};
use std::alloc::Global;
use std::test::Fail;

/// What a line did.
#[derive(Drop)]
pub struct LineTrace {
    /// The files that it read.
    pub read: Vec<Path>,
    /// The directories that it listed.
    pub listed: Vec<Path>,
    /// What it changed.
    pub effects: Vec<Effect>,
    /// The file with its session's functions.
    pub shell: Option<Path>,
}

/// Returns the bytes of a line's text.
pub fn line_text(alloc: Global, text: &str) -> Result<Vec<u8>, Fail> {
    match text.strip_prefix("hex ") {
        Some(digits) => match hex::decode(alloc, digits.as_bytes()) {
            Ok(bytes) => Ok(bytes),
            Err(_) => fail("no digits"),
        },
        None => Ok(Vec::from_slice(alloc, text.as_bytes())?),
    }
}

/// Notes one entry.
fn note(alloc: Global, trace: &mut LineTrace, entry: &str) -> Result<(), Fail> {
    match entry.split_once(' ') {
        Some(("read", at)) => trace.read.push(path(alloc, at)?)?,
        Some(("list", at)) => trace.listed.push(path(alloc, at)?)?,
        Some(("append", at)) => trace.effects.push(Effect::Append(path(alloc, at)?))?,
        Some(("other", at)) => trace.effects.push(Effect::Other(path(alloc, at)?))?,
        Some(("shell", at)) => trace.shell = Some(path(alloc, at)?),
        _ => return fail("no such entry"),
    }
    Ok(())
}

/// Returns what a line did.
pub fn trace(alloc: Global, text: &str) -> Result<LineTrace, Fail> {
    let mut trace = LineTrace {
        read: Vec::new(alloc),
        listed: Vec::new(alloc),
        effects: Vec::new(alloc),
        shell: None,
    };
    if text != "nothing" {
        for entry in text.split(", ") {
            note(alloc, &mut trace, entry)?;
        }
    }
    Ok(trace)
}
