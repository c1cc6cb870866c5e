//! Documents, and the scripts and recordings that they are.
use retro_keep::{Edit, EditFault, Script, ScriptLine};
use retro_log::{LogFault, read_log, read_script, sessions_value, tree_value};
use retro_rows::{fail, numbered, text};
use retro_tree::{NoMem, State, Text};
use std::alloc::Global;
use std::test::Fail;

/// Returns the number of a refusal. Fails if an allocation failed.
fn fault_text(alloc: Global, fault: LogFault) -> Result<String, NoMem> {
    match fault {
        LogFault::NoMem => Err(NoMem),
        LogFault::Refused(refusal) => format!(in alloc; "{}", refusal.number()),
    }
}

/// Returns the number of a document's refusal, or `script`.
pub fn script(alloc: Global, document: &str) -> Result<String, NoMem> {
    match read_script(alloc, document.as_bytes()) {
        Ok(_) => text(alloc, "script"),
        Err(fault) => fault_text(alloc, fault),
    }
}

/// Returns the text of a script document before and after the value at a key. The other values are
/// lawful.
fn around(part: &str) -> Option<(&'static str, &'static str)> {
    match part {
        "version" => Some((
            r#"{"script":"#,
            r#","tree":[],"sessions":[[1,"/",0,[]]],"lines":[]}"#,
        )),
        "entries" => Some((
            r#"{"script":1,"tree":"#,
            r#","sessions":[[1,"/",0,[]]],"lines":[]}"#,
        )),
        "sessions" => Some((r#"{"script":1,"tree":[],"sessions":"#, r#","lines":[]}"#)),
        "lines" => Some((
            r#"{"script":1,"tree":[],"sessions":[[1,"/",0,[]]],"lines":"#,
            "}",
        )),
        _ => None,
    }
}

/// Returns the number of the refusal of a document with a value between these texts, or `script`.
fn script_between(alloc: Global, before: &str, value: &str, after: &str) -> Result<String, NoMem> {
    let document = format!(in alloc; "{before}{value}{after}")?;
    script(alloc, &document)
}

/// Returns the number of the refusal of a script with this value at a key and lawful values at the
/// others, or `script`.
pub fn script_part(alloc: Global, part: &str, value: &str) -> Result<String, NoMem> {
    match around(part) {
        Some((before, after)) => script_between(alloc, before, value, after),
        None => text(alloc, "no such part"),
    }
}

/// Returns the number of a log's refusal, or `log`.
fn log_of(alloc: Global, document: &[u8]) -> Result<String, NoMem> {
    match read_log(alloc, document) {
        Ok(_) => text(alloc, "log"),
        Err(fault) => fault_text(alloc, fault),
    }
}

/// Returns the number of the refusal of the log that a text is, or `log`.
pub fn log(alloc: Global, document: &str) -> Result<String, NoMem> {
    log_of(alloc, document.as_bytes())
}

/// Returns the length of the first proper prefix of a log with another result than `all`, or
/// `None`.
fn other_front(alloc: Global, document: &[u8], all: &str) -> Result<Option<usize>, NoMem> {
    for end in 0..document.len() {
        let front = log_of(alloc, &document[..end])?;
        if front.as_str() != all {
            return Ok(Some(end));
        }
    }
    Ok(None)
}

/// Returns the result of a document and of all its prefixes, or the length of a prefix with another
/// result.
fn fronts_text(alloc: Global, document: &[u8]) -> Result<String, NoMem> {
    let all = log_of(alloc, document)?;
    match other_front(alloc, document, &all)? {
        Some(end) => format!(in alloc; "something else for {end} bytes"),
        None => Ok(all),
    }
}

/// Returns the result of all prefixes of a log that lack its last brace, if they have the same.
pub fn log_fronts(alloc: Global, document: &str) -> Result<String, NoMem> {
    match document.strip_suffix("}") {
        Some(longest) => fronts_text(alloc, longest.as_bytes()),
        None => text(alloc, "no brace at the end"),
    }
}

/// What a log has before its lines, of two sessions, over a directory `/d` with a file `f`.
const BEFORE_LINES: &str = concat!(
    r#"{"log":1,"tree":[["/d"],["/d/f","61"]],"#,
    r#""sessions":[[1,"/",0,[]],[2,"/",0,[]]],"lines":"#,
);

/// Returns the number of the refusal of such a log with these lines, or `log`.
pub fn logged(alloc: Global, lines: &str) -> Result<String, NoMem> {
    let document = format!(in alloc; "{BEFORE_LINES}{lines}}}")?;
    log(alloc, &document)
}

/// Returns the number of the refusal of such a log whose one line has this note, or `log`.
pub fn note(alloc: Global, note: &str) -> Result<String, NoMem> {
    let lines = format!(in alloc; r#"[[1,1,"",[{note}],""]]"#)?;
    logged(alloc, &lines)
}

/// Reads the script of a document. Fails if the document is refused.
pub fn script_of(alloc: Global, document: &str) -> Result<Script, Fail> {
    match read_script(alloc, document.as_bytes()) {
        Ok(script) => Ok(script),
        Err(_) => fail("refused"),
    }
}

/// Returns the tree and the sessions of a state as documents have them.
fn state_text(alloc: Global, state: &State) -> Result<String, NoMem> {
    let tree = tree_value(alloc, state)?.to_string(alloc)?;
    let sessions = sessions_value(alloc, state)?.to_string(alloc)?;
    format!(in alloc; "{tree} {sessions}")
}

/// Appends a line.
fn push_line(alloc: Global, out: &mut String, line: &ScriptLine) -> Result<(), NoMem> {
    let text = line.text.as_str();
    out.push_str(&format!(in alloc; " {} {} {text}", line.number, line.sid)?)
}

/// Appends the lines of a script.
fn push_lines(alloc: Global, out: &mut String, script: &Script) -> Result<(), NoMem> {
    for line in script.lines() {
        push_line(alloc, out, line)?;
    }
    Ok(())
}

/// Returns the first state of a script as documents have it, and its lines.
fn script_text(alloc: Global, script: &Script) -> Result<String, NoMem> {
    let mut out = state_text(alloc, script.first())?;
    push_lines(alloc, &mut out, script)?;
    Ok(out)
}

/// Reads a script. Returns its tree and its sessions as they are written again, and its lines.
pub fn written(alloc: Global, document: &str) -> Result<String, Fail> {
    let script = script_of(alloc, document)?;
    Ok(script_text(alloc, &script)?)
}

/// Returns the lines of a script.
fn lines_text(alloc: Global, script: &Script) -> Result<String, NoMem> {
    let mut out = text(alloc, "lines")?;
    push_lines(alloc, &mut out, script)?;
    Ok(out)
}

/// Returns the edits of a list: numbers of lines that are left out, and numbers with a text.
fn edits(alloc: Global, list: &str) -> Result<Vec<Edit>, Fail> {
    let mut edits = Vec::new(alloc);
    for (number, line) in numbered(alloc, list)? {
        edits.push(match line {
            None => Edit::Cancel(number),
            Some(line) => Edit::Replace(number, Text::of(line)),
        })?;
    }
    Ok(edits)
}

/// Returns the edited lines of a script, or the number of the refusal with that of the line.
fn edited_text(alloc: Global, script: Script, edits: &[Edit]) -> Result<String, NoMem> {
    match script.edit(alloc, edits) {
        Ok(script) => lines_text(alloc, &script),
        Err(EditFault::TwoEdits(number)) => format!(in alloc; "26 {number}"),
        Err(EditFault::NoSuchLine(number)) => format!(in alloc; "21 {number}"),
        Err(EditFault::NoMem) => Err(NoMem),
    }
}

/// Returns the edited lines of a document's script, or the number of the refusal with that of the
/// line.
pub fn edited(alloc: Global, document: &str, list: &str) -> Result<String, Fail> {
    let edits = edits(alloc, list)?;
    let script = script_of(alloc, document)?;
    Ok(edited_text(alloc, script, &edits)?)
}
