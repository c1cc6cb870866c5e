//! Needs as texts.
use crate::states::SESSION;
use casebook_needs::Source;
use retro_path::{Path, Text};
use retro_rows::{fail, path_text, text};
use retro_tree::{Answer, Ask, Node, Note};
use std::alloc::Global;
use std::test::Fail;

/// Appends a text after a separator, if it isn't the first one.
pub fn push_after(out: &mut String, separator: &str, text: &str) -> Result<(), Fail> {
    if !out.is_empty() {
        out.push_str(separator)?;
    }
    out.push_str(text)?;
    Ok(())
}

/// Returns bytes as a text in brackets, or their hexadecimal digits if they aren't UTF-8.
pub fn bytes_text(alloc: Global, bytes: &[u8]) -> Result<String, Fail> {
    match str::from_utf8(bytes) {
        Ok(text) => Ok(format!(in alloc; "[{text}]")?),
        Err(_) => Ok(format!(in alloc; "hex {}", hex::encode(alloc, bytes)?.as_str())?),
    }
}

/// Returns a path as a text.
pub fn shown(alloc: Global, path: &Path) -> Result<String, Fail> {
    Ok(path_text(alloc, path.names())?)
}

/// Returns the name of a source.
pub fn source_text(alloc: Global, source: &Source) -> Result<String, Fail> {
    let name = match source {
        Source::Read => "read",
        Source::Listed => "listed",
        Source::Written => "written",
        Source::Named => "named",
        Source::InScript(path) => {
            return Ok(format!(in alloc; "in {}", shown(alloc, path)?.as_str())?);
        }
        Source::Variable => "variable",
        Source::Directory => "directory",
        Source::Shell => "shell",
    };
    Ok(text(alloc, name)?)
}

/// Returns a query as a text. Fails if it is about another session.
pub fn ask_text(alloc: Global, ask: &Ask) -> Result<String, Fail> {
    match ask {
        Ask::Bytes(path) => Ok(format!(in alloc; "bytes {}", shown(alloc, path)?.as_str())?),
        Ask::Names(path) => Ok(format!(in alloc; "names {}", shown(alloc, path)?.as_str())?),
        Ask::VarOf(SESSION, name) => Ok(format!(in alloc; "var {}", name.as_str())?),
        Ask::CwdOf(SESSION) => Ok(text(alloc, "cwd")?),
        Ask::StatusOf(SESSION) => Ok(text(alloc, "status")?),
        _ => fail("no query of a need"),
    }
}

/// Returns a node as a text.
fn node_text(alloc: Global, node: &Node) -> Result<String, Fail> {
    match node {
        Node::Missing => Ok(text(alloc, "nothing")?),
        Node::Dir => Ok(text(alloc, "directory")?),
        Node::File(bytes) => bytes_text(alloc, bytes.as_slice()),
    }
}

/// Returns the value of a variable as a text.
fn value_text(alloc: Global, value: &Option<Text>) -> Result<String, Fail> {
    match value {
        Some(value) => bytes_text(alloc, value.bytes()),
        None => Ok(text(alloc, "unset")?),
    }
}

/// Returns an answer as a text.
fn answer_text(alloc: Global, answer: &Answer) -> Result<String, Fail> {
    match answer {
        Answer::Bytes(node) => node_text(alloc, node),
        Answer::Names(None) => Ok(text(alloc, "no directory")?),
        Answer::Names(Some(listing)) => {
            let mut out = String::new(alloc);
            for name in listing.names() {
                push_after(&mut out, " ", name.as_str())?;
            }
            Ok(format!(in alloc; "({})", out.as_str())?)
        }
        Answer::Var(value) => value_text(alloc, value),
        Answer::Cwd(path) => shown(alloc, path),
        Answer::Status(status) => Ok(format!(in alloc; "{status}")?),
        _ => fail("no answer of a need"),
    }
}

/// Returns a note of a query and its answer as a text.
pub fn note_text(alloc: Global, note: &Note) -> Result<String, Fail> {
    let Note::Asked(ask, answer) = note else {
        return fail("no query");
    };
    Ok(format!(in alloc;
        "{} {}",
        ask_text(alloc, ask)?.as_str(),
        answer_text(alloc, answer)?.as_str()
    )?)
}
