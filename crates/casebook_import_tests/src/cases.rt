//! Cases of spools in memory, and their logs.
ghost use Rattle.std.specs.Prelude.{None};

use crate::history::rows_in;
use casebook_case::{SpoolSource, read_case, spool_case};
use casebook_observe::SpoolError;
use casebook_recording::{RecordingFault, case_log};
use casebook_spool::{Contents, Digest};
use retro_keep::{Recording, check};
use retro_log::read_log;
use retro_path::Bytes;
use retro_rows::fail;
use std::alloc::Global;
use std::test::Fail;

/// A spool in memory.
#[derive(Drop)]
struct Kept {
    first: String,
    lines: String,
    contents: Contents,
}

/// Returns a copy of a text's bytes.
fn copy(alloc: Global, text: &str) -> Result<Vec<u8>, SpoolError> {
    match Vec::from_slice(alloc, text.as_bytes()) {
        Ok(bytes) => Ok(bytes),
        Err(_) => Err(SpoolError::NoMem),
    }
}

impl SpoolSource for Kept {
    ghost holds = { λ _. None };

    fn first(&self, alloc: Global) -> Result<Vec<u8>, SpoolError> {
        copy(alloc, self.first.as_str())
    }

    fn lines(&self, alloc: Global) -> Result<Vec<u8>, SpoolError> {
        copy(alloc, self.lines.as_str())
    }

    fn content(&self, _alloc: Global, digest: &Digest) -> Result<Option<Bytes>, SpoolError> {
        match self.contents.get(digest) {
            Some(bytes) => match bytes.copy() {
                Ok(bytes) => Ok(Some(bytes)),
                Err(_) => Err(SpoolError::NoMem),
            },
            None => Ok(None),
        }
    }
}

/// Returns the spool with a first look and a history.
fn spool(alloc: Global, first: &str, history: &str) -> Result<Kept, Fail> {
    let mut contents = Contents::new(alloc);
    let rows = rows_in(alloc, &mut contents, first)?;
    let count = rows.lines().count();
    Ok(Kept {
        first: format!(in alloc; "listing\t0\t{count}\n{}", rows.as_str())?,
        lines: rows_in(alloc, &mut contents, history)?,
        contents,
    })
}

/// Returns the document of a spool's case, without its newline, or why there is none.
pub fn case(alloc: Global, first: &str, history: &str) -> Result<String, Fail> {
    let spool = spool(alloc, first, history)?;
    match spool_case(alloc, &spool, &[]) {
        Ok(text) => {
            let Ok(text) = String::from_utf8(text) else {
                return fail("a case is text");
            };
            Ok(String::from_str(alloc, text.as_str().trim_end())?)
        }
        Err(fault) => Ok(format!(in alloc; "{fault}")?),
    }
}

/// Returns whether a document is a case, or why it isn't.
pub fn read(alloc: Global, document: &str) -> Result<String, Fail> {
    match read_case(alloc, document.as_bytes()) {
        Ok(_) => Ok(String::from_str(alloc, "a case")?),
        Err(fault) => Ok(format!(in alloc; "{fault}")?),
    }
}

/// Returns why a case has no log, as text.
fn fault_text(alloc: Global, fault: &RecordingFault) -> Result<String, Fail> {
    Ok(match fault {
        RecordingFault::NoMem => format!(in alloc; "no memory")?,
        RecordingFault::Case(fault) => format!(in alloc; "{fault}")?,
        RecordingFault::Contradiction(at) => format!(in alloc; "contradiction {at}")?,
        RecordingFault::TooManySessions => format!(in alloc; "sessions")?,
        RecordingFault::LawlessState => format!(in alloc; "lawless")?,
        RecordingFault::Line(place, _) => format!(in alloc; "line {place}")?,
        RecordingFault::TooManyLines => format!(in alloc; "lines")?,
    })
}

/// Returns the numbers and texts of the lines of a recording.
fn texts(alloc: Global, recording: &Recording) -> Result<String, Fail> {
    let mut out = String::new(alloc);
    for (number, noted) in recording.lines() {
        let row = format!(in alloc; " {number} {} [{}]", noted.sid, noted.text.as_str())?;
        out.push_str(row.as_str())?;
    }
    Ok(out)
}

/// Returns whether the log of a document is as its lines run, and the numbers, sessions and texts of
/// the lines; or why there is no log.
pub fn logged(alloc: Global, document: &[u8]) -> Result<String, Fail> {
    let log = match case_log(alloc, document) {
        Ok(log) => log,
        Err(fault) => return fault_text(alloc, &fault),
    };
    let recording = read_log(alloc, log.as_slice())?;
    let texts = texts(alloc, &recording)?;
    Ok(if check(alloc, &recording)? {
        format!(in alloc; "runs:{}", texts.as_str())?
    } else {
        format!(in alloc; "differs:{}", texts.as_str())?
    })
}

/// Returns the document of a spool's case. In `/srv` it wasn't always seen what lines only read.
pub fn document(alloc: Global, first: &str, history: &str) -> Result<Vec<u8>, Fail> {
    let spool = spool(alloc, first, history)?;
    match spool_case(alloc, &spool, b"/srv\n") {
        Ok(text) => Ok(text),
        Err(_) => fail("no case"),
    }
}

/// Returns the same of the log of a spool's case.
pub fn log(alloc: Global, first: &str, history: &str) -> Result<String, Fail> {
    let document = document(alloc, first, history)?;
    logged(alloc, document.as_slice())
}
