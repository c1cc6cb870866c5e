//! About documents, and the places for which documents are refused.
use casebook_about::{About, AboutFault, read_about, time_text};
use casebook_check::{Place, place_in_log, place_in_script, push_place};
use casebook_text::SafeLine;
use hex::decode;
use retro_log::{LogFault, Refusal, read_log, read_script};
use retro_rows::text;
use std::alloc::{AllocError, Global};
use std::test::Fail;

/// Returns what an about document says, with spaces between the parts, or a dash if that is
/// nothing.
fn told(alloc: Global, about: &About) -> Result<String, Fail> {
    let mut text = String::new(alloc);
    for user in about.users.iter() {
        write!(text, " {}={}", user.session, user.user.as_str())?;
    }
    for time in about.times.iter() {
        let shown = time_text(alloc, time.second)?;
        write!(text, " {}@{}", time.number, shown.as_str())?;
    }
    if text.is_empty() {
        text.push_str(" -")?;
    }
    Ok(text)
}

/// Returns what a text says as an about document, or why it is refused.
pub fn about(alloc: Global, given: &str) -> Result<String, Fail> {
    match read_about(alloc, given) {
        Ok(about) => Ok(text(alloc, told(alloc, &about)?.as_str().trim_start())?),
        Err(AboutFault::NoMem) => Err(AllocError)?,
        Err(fault) => Ok(format!(in alloc; "{fault}")?),
    }
}

/// Returns a refusal with a place.
fn said(alloc: Global, refusal: Refusal, place: &Place) -> Result<String, AllocError> {
    let mut line = SafeLine::new(alloc);
    line.push_number(alloc, u64::from(refusal.number()))?;
    line.push_ascii(" ")?;
    push_place(alloc, &mut line, place)?;
    text(alloc, line.as_str())
}

/// Returns for what a script is refused, and where.
pub fn script(alloc: Global, bytes: &[u8]) -> Result<String, AllocError> {
    match read_script(alloc, bytes) {
        Ok(_) => text(alloc, "a script"),
        Err(LogFault::NoMem) => Err(AllocError),
        Err(LogFault::Refused(refusal)) => {
            said(alloc, refusal, &place_in_script(alloc, bytes, refusal)?)
        }
    }
}

/// Returns for what a log is refused, and where.
pub fn log(alloc: Global, bytes: &[u8]) -> Result<String, AllocError> {
    match read_log(alloc, bytes) {
        Ok(_) => text(alloc, "a log"),
        Err(LogFault::NoMem) => Err(AllocError),
        Err(LogFault::Refused(refusal)) => {
            said(alloc, refusal, &place_in_log(alloc, bytes, refusal)?)
        }
    }
}

/// Returns for what a log of bytes in hexadecimal digits is refused, and where.
pub fn log_of_bytes(alloc: Global, digits: &str) -> Result<String, Fail> {
    let bytes = decode(alloc, digits)?;
    Ok(log(alloc, bytes.as_slice())?)
}
