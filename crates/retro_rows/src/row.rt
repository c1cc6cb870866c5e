//! Rows of tables.
use crate::row_error::RowError;
use std::alloc::Global;
use std::test::Fail;

/// One row of a table.
#[derive(Drop)]
pub struct Row {
    /// The text of the row with all that it is given, for a failure's message.
    pub text: String,
    /// The name of the call.
    pub call: String,
    /// What the call is given.
    pub given: Vec<String>,
    /// What it has to return.
    pub wanted: String,
}

impl Row {
    /// Reads the row that a text is.
    pub(crate) fn read(alloc: Global, text: String) -> Result<Self, RowError> {
        let (call, rest) = text.split_once(": ").ok_or(RowError::NoCall)?;
        let (given, wanted) = rest.split_once(" => ").ok_or(RowError::NothingWanted)?;
        let (call, given) = (String::from_str(alloc, call)?, fields(alloc, given)?);
        let wanted = unescaped(alloc, wanted)?;
        Ok(Self {
            text,
            call,
            given,
            wanted,
        })
    }

    /// Compares what the row's call returned with what it has to return. The error has the row's
    /// text and what was returned.
    pub fn compare(&self, alloc: Global, returned: &str) -> Result<(), Fail> {
        if self.wanted.as_str() == returned {
            return Ok(());
        }
        let told = format!(in alloc; "{}\nreturned: {returned}", self.text)?;
        Err(told)?
    }
}

/// Appends what an escape `%(..)` stands for, and the text after it.
fn push_escaped(out: &mut String, part: &str) -> Result<(), RowError> {
    let (escape, rest) = part.split_once(')').ok_or(RowError::BadEscape)?;
    let (text, count) = match escape {
        "NL" => ("\n", "1"),
        "NUL" => ("\0", "1"),
        "TAB" => ("\t", "1"),
        "CR" => ("\r", "1"),
        "ESC" => ("\u{1b}", "1"),
        "RLO" => ("\u{202e}", "1"),
        "BOM" => ("\u{feff}", "1"),
        "EMPTY" => ("", "1"),
        _ => escape.split_once('*').ok_or(RowError::BadEscape)?,
    };
    let count: u32 = count.parse()?;
    for _ in 0..count {
        out.push_str(text)?;
    }
    out.push_str(rest)?;
    Ok(())
}

/// Returns the text that a field of a row stands for: `%(NL)` is a newline, `%(n*3)` is `nnn`.
fn unescaped(alloc: Global, field: &str) -> Result<String, RowError> {
    let mut out = String::new(alloc);
    let mut parts = field.split("%(");
    if let Some(first) = parts.next() {
        out.push_str(first)?;
    }
    for part in parts {
        push_escaped(&mut out, part)?;
    }
    Ok(out)
}

/// Returns the fields of a row, which ` :: ` separates, with their escapes replaced.
fn fields(alloc: Global, given: &str) -> Result<Vec<String>, RowError> {
    let mut fields = Vec::new(alloc);
    for field in given.split(" :: ") {
        fields.push(unescaped(alloc, field)?)?;
    }
    Ok(fields)
}
