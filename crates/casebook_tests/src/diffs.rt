//! Diffs and their parts.
use casebook_text::{Mark, Span, diff, hunks};
use std::alloc::{AllocError, Global};

/// Returns the sign of a mark.
pub fn sign(mark: Mark) -> char {
    match mark {
        Mark::Same => '=',
        Mark::Removed => '-',
        Mark::Added => '+',
    }
}

/// Returns the words of a text.
fn words_of(alloc: Global, text: &str) -> Result<Vec<&str>, AllocError> {
    if text.is_empty() {
        return Ok(Vec::new(alloc));
    }
    text.split(' ').collect(alloc)
}

/// Appends a text after a space, if it isn't the first one.
fn push_after_space(out: &mut String, text: &str) -> Result<(), AllocError> {
    if !out.is_empty() {
        out.push(' ')?;
    }
    out.push_str(text)
}

/// Returns the lines of a diff with their marks.
fn marked(alloc: Global, lines: &[(Mark, &str)]) -> Result<String, AllocError> {
    let mut out = String::new(alloc);
    for (mark, line) in lines {
        push_after_space(
            &mut out,
            format!(in alloc; "{}{line}", sign(*mark))?.as_str(),
        )?;
    }
    Ok(out)
}

/// Returns which lines of a text a part is about, as in the head of a unified diff.
fn span_text(alloc: Global, sign: char, span: Span) -> Result<String, AllocError> {
    let first = if span.count == 0 {
        span.before
    } else {
        span.before.saturating_add(1)
    };
    if span.count == 1 {
        return format!(in alloc; "{sign}{first}");
    }
    let count = span.count;
    format!(in alloc; "{sign}{first},{count}")
}

/// Returns the heads of the parts of a diff, with one line of context.
fn heads(alloc: Global, lines: &[(Mark, &str)]) -> Result<String, AllocError> {
    let mut out = String::new(alloc);
    for hunk in hunks(alloc, lines, 1)? {
        push_after_space(&mut out, span_text(alloc, '-', hunk.old)?.as_str())?;
        push_after_space(&mut out, span_text(alloc, '+', hunk.new)?.as_str())?;
    }
    Ok(out)
}

/// Returns the diff of two texts whose lines are words, or the heads of its parts.
pub fn compared(alloc: Global, call: &str, old: &str, new: &str) -> Result<String, AllocError> {
    let old = words_of(alloc, old)?;
    let new = words_of(alloc, new)?;
    let merged = diff(alloc, old.as_slice(), new.as_slice())?;
    match call {
        "hunks" => heads(alloc, merged.as_slice()),
        _ => marked(alloc, merged.as_slice()),
    }
}
