//! Records as texts.
use casebook_record::{Begin, End, Event, Record, Start};
use retro_path::Bytes;
use retro_rows::text;
use std::alloc::Global;
use std::test::Fail;

/// Returns bytes as a text in brackets, or their hexadecimal digits if they aren't UTF-8.
fn bytes_text(alloc: Global, bytes: &[u8]) -> Result<String, Fail> {
    match str::from_utf8(bytes) {
        Ok(text) => Ok(format!(in alloc; "[{text}]")?),
        Err(_) => Ok(format!(in alloc; "hex {}", hex::encode(alloc, bytes)?.as_str())?),
    }
}

/// Returns a text, or the word for none.
fn text_or(alloc: Global, bytes: &Option<Bytes>, none: &str) -> Result<String, Fail> {
    match bytes {
        Some(bytes) => bytes_text(alloc, bytes.as_slice()),
        None => Ok(text(alloc, none)?),
    }
}

/// Returns a start as a text.
fn start_text(alloc: Global, start: &Start) -> Result<String, Fail> {
    let parent = match &start.parent {
        Some(name) => bytes_text(alloc, name.as_slice())?,
        None => text(alloc, "none")?,
    };
    let variables = text_or(alloc, &start.variables, "same")?;
    let shell = text_or(alloc, &start.shell, "same")?;
    Ok(format!(in alloc;
        "start, parent {parent}, terminal {}, umask {:04o}, login {}, connection {}, variables \
         {variables}, shell {shell}",
        bytes_text(alloc, start.terminal.as_slice())?,
        start.umask.bits(),
        bytes_text(alloc, start.login.as_slice())?,
        bytes_text(alloc, start.connection.as_slice())?
    )?)
}

/// Returns a beginning as a text.
fn begin_text(alloc: Global, begin: &Begin) -> Result<String, Fail> {
    Ok(format!(in alloc;
        "begin {} {}",
        begin.number.get(),
        text_or(alloc, &begin.line, "hidden")?
    )?)
}

/// Returns an end as a text.
fn end_text(alloc: Global, end: &End) -> Result<String, Fail> {
    let line = text_or(alloc, &end.line, "hidden")?;
    let variables = text_or(alloc, &end.variables, "same")?;
    let shell = text_or(alloc, &end.shell, "same")?;
    let mut statuses = String::new(alloc);
    for status in end.statuses.as_slice() {
        statuses.push_str(format!(in alloc; " {status}")?.as_str())?;
    }
    Ok(format!(in alloc;
        "end {}, status {}, statuses{statuses}, line {line}, variables {variables}, shell {shell}",
        end.number.get(),
        end.status
    )?)
}

/// Returns an event as a text.
fn event_text(alloc: Global, event: &Event) -> Result<String, Fail> {
    match event {
        Event::Start(start) => start_text(alloc, start),
        Event::Begin(begin) => begin_text(alloc, begin),
        Event::End(end) => end_text(alloc, end),
        Event::Exit(exit) => {
            Ok(format!(in alloc; "exit, lines {}, status {}", exit.lines, exit.status)?)
        }
    }
}

/// Returns a record as a text.
pub fn record_text(alloc: Global, record: &Record) -> Result<String, Fail> {
    Ok(format!(in alloc;
        "{} at {} user {} in {}: {}",
        bytes_text(alloc, record.session.as_slice())?,
        record.at.get(),
        record.user,
        bytes_text(alloc, record.directory.as_slice())?,
        event_text(alloc, &record.event)?
    )?)
}
