//! Words and commands of stand-ins.
use crate::NoMem;
use std::alloc::Global;

/// Returns whether a character of a word needs no quotes.
fn is_plain(c: char) -> bool {
    c.is_ascii_alphanumeric() || c == '/' || c == '.' || c == '_' || c == '-'
}

/// Returns whether a word can be written without quotes.
fn is_plain_word(text: &str) -> bool {
    !text.is_empty() && text.chars().all(|c| is_plain(c))
}

/// Appends a character that single quotes quote. Returns false if it is a NUL, which no text of the
/// profile can have.
pub(crate) fn push_quoted(command: &mut String, c: char) -> Result<bool, NoMem> {
    if c == '\0' {
        return Ok(false);
    }
    if c == '\'' {
        command.push_str("'\\''")?;
    } else {
        command.push(c)?;
    }
    Ok(true)
}

/// Appends a word that is read as a text, in single quotes if it needs them. Returns false if a NUL
/// is in it.
pub(crate) fn push_word(command: &mut String, text: &str) -> Result<bool, NoMem> {
    if is_plain_word(text) {
        command.push_str(text)?;
        return Ok(true);
    }
    command.push('\'')?;
    for c in text.chars() {
        if !push_quoted(command, c)? {
            return Ok(false);
        }
    }
    command.push('\'')?;
    Ok(true)
}

/// Returns a command: some text, and then a word that is read as another text. Returns `None` if a
/// NUL is in that one.
pub(crate) fn command_on(alloc: Global, start: &str, text: &str) -> Result<Option<String>, NoMem> {
    let mut command = String::from_str(alloc, start)?;
    if push_word(&mut command, text)? {
        Ok(Some(command))
    } else {
        Ok(None)
    }
}
