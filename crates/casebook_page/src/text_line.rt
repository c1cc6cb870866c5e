//! Lines of texts, as a page shows them.
ghost use Rattle.std.specs.Prelude.{◌≡◌, OnOk};

use crate::NoMem;
use casebook_html::{Html, Tag};
use casebook_text::{Hunk, Mark, SafeLine, Span};
use std::alloc::Global;

/// The byte that ends a line.
const NEWLINE: u8 = b'\n';

/// The greatest number of bytes of a character after its first one.
const MOST_BYTES_BACK: usize = 3;

/// In what kind of text a line is shown.
#[derive(Clone, Copy, Debug, PartialEq, Eq)]
pub(crate) enum Form {
    /// A text that is shown alone.
    Alone,
    /// One of two texts side by side.
    Side,
    /// A diff: each line begins with the sign of its mark.
    Diff,
}

/// A line of a text, as a page shows it.
#[derive(Drop, Clone, Copy)]
pub(crate) struct TextLine<'a> {
    /// The line without its newline.
    pub(crate) text: &'a [u8],
    /// Whether a newline ends the line.
    pub(crate) is_ended: bool,
    /// In which of two texts the line is.
    pub(crate) mark: Mark,
    /// The part of a diff that begins with the line, if one does.
    pub(crate) hunk: Option<Hunk>,
}

/// Returns a line of one text.
fn line_of<'a>(text: &'a [u8], is_ended: bool) -> TextLine<'a> {
    TextLine {
        text,
        is_ended,
        mark: Mark::Same,
        hunk: None,
    }
}

/// Returns the lines of a text.
pub(crate) fn text_lines<'a>(alloc: Global, text: &'a [u8]) -> Result<Vec<TextLine<'a>>, NoMem> {
    let mut lines = Vec::new(alloc);
    let mut rest = text;
    while !rest.is_empty() {
        match rest.iter().position(|byte| *byte == NEWLINE) {
            Some(index) => {
                lines.push(line_of(&rest[..index], true))?;
                rest = &rest[index + 1..];
            }
            None => {
                lines.push(line_of(rest, false))?;
                return Ok(lines);
            }
        }
    }
    Ok(lines)
}

/// Returns whether a byte continues a character in UTF-8.
fn continues(byte: u8) -> bool {
    (128..192).contains(&byte)
}

/// Returns where bytes are cut: at the limit, or up to three bytes before it, so that no character
/// is split.
fn cut_end(bytes: &[u8], limit: usize) -> usize {
    for back in 0..MOST_BYTES_BACK + 1 {
        let end = limit.saturating_sub(back);
        if !continues(bytes.get(end).copied().unwrap_or(0)) {
            return end;
        }
    }
    limit
}

/// Appends bytes. If there are more than `limit`, they are cut, and it is said how many are left
/// out.
fn push_cut_bytes(html: &mut Html, alloc: Global, bytes: &[u8], limit: usize) -> Result<(), NoMem>
    ensures { OnOk result (html.new ≡ html.old) }
{
    if bytes.len() <= limit {
        return html.excerpt(alloc, bytes);
    }
    let end = cut_end(bytes, limit).min(bytes.len());
    let (front, rest) = bytes.split_at(end);
    html.excerpt(alloc, front)?;
    let mut line = SafeLine::new(alloc);
    line.push_ascii(" .. ")?;
    line.push_number(alloc, rest.len() as u64)?;
    line.push_ascii(" more bytes in this line")?;
    html.fixed(Tag::Cut)?;
    html.aside(line)?;
    html.fixed(Tag::CutEnd)
}

/// Appends which lines of a text a part of a diff is about, as a unified diff says it: the number
/// of the first one, and how many there are unless it is one.
fn push_span(alloc: Global, line: &mut SafeLine, span: Span) -> Result<(), NoMem> {
    let first = if span.count == 0 {
        span.before
    } else {
        span.before.saturating_add(1)
    };
    line.push_number(alloc, first as u64)?;
    if span.count == 1 {
        return Ok(());
    }
    line.push_ascii(",")?;
    line.push_number(alloc, span.count as u64)
}

/// Appends the head of a part of a diff.
fn push_hunk(html: &mut Html, alloc: Global, hunk: &Hunk) -> Result<(), NoMem>
    ensures { OnOk result (html.new ≡ html.old) }
{
    let mut line = SafeLine::new(alloc);
    line.push_ascii("@@ -")?;
    push_span(alloc, &mut line, hunk.old)?;
    line.push_ascii(" +")?;
    push_span(alloc, &mut line, hunk.new)?;
    line.push_ascii(" @@")?;
    html.fixed(Tag::Cut)?;
    html.aside(line)?;
    html.fixed(Tag::CutEnd)?;
    html.fixed(Tag::Newline)
}

impl<'a> TextLine<'a> {
    /// Returns the line with a mark.
    pub(crate) fn with_mark(self, mark: Mark) -> TextLine<'a> {
        TextLine {
            text: self.text,
            is_ended: self.is_ended,
            mark,
            hunk: self.hunk,
        }
    }

    /// Returns the line with the head of a part of a diff, or without one.
    pub(crate) fn with_hunk(self, hunk: Option<Hunk>) -> TextLine<'a> {
        TextLine {
            text: self.text,
            is_ended: self.is_ended,
            mark: self.mark,
            hunk,
        }
    }

    /// Appends the sign of the line's mark in a diff, and nothing in other texts.
    fn push_sign(&self, html: &mut Html, form: Form) -> Result<(), NoMem>
        ensures { OnOk result (html.new ≡ html.old) }
    {
        if form != Form::Diff {
            return Ok(());
        }
        match self.mark {
            Mark::Same => html.words(" "),
            Mark::Removed => html.words("-"),
            Mark::Added => html.words("+"),
        }
    }

    /// Appends the line without a newline. One that no newline ends says so, unless its text is
    /// shown alone.
    fn push_text(
        &self,
        html: &mut Html,
        alloc: Global,
        form: Form,
        limit: usize,
    ) -> Result<(), NoMem>
        ensures { OnOk result (html.new ≡ html.old) }
    {
        self.push_sign(html, form)?;
        push_cut_bytes(html, alloc, self.text, limit)?;
        if self.is_ended || form == Form::Alone {
            return Ok(());
        }
        html.fixed(Tag::Cut)?;
        html.words(" no newline")?;
        html.fixed(Tag::CutEnd)
    }

    /// Appends the line, cut to a limit, between the tags of its mark.
    fn push_marked(
        &self,
        html: &mut Html,
        alloc: Global,
        form: Form,
        limit: usize,
    ) -> Result<(), NoMem>
        ensures { OnOk result (html.new ≡ html.old) }
    {
        match self.mark {
            Mark::Same => self.push_text(html, alloc, form, limit),
            Mark::Removed => {
                html.fixed(Tag::Delete)?;
                self.push_text(html, alloc, form, limit)?;
                html.fixed(Tag::DeleteEnd)
            }
            Mark::Added => {
                html.fixed(Tag::Insert)?;
                self.push_text(html, alloc, form, limit)?;
                html.fixed(Tag::InsertEnd)
            }
        }
    }

    /// Appends the line, cut to a limit, between the tags of its mark, and a newline.
    pub(crate) fn push(
        &self,
        html: &mut Html,
        alloc: Global,
        form: Form,
        limit: usize,
    ) -> Result<(), NoMem>
        ensures { OnOk result (html.new ≡ html.old) }
    {
        if let Some(hunk) = &self.hunk {
            push_hunk(html, alloc, hunk)?;
        }
        self.push_marked(html, alloc, form, limit)?;
        html.fixed(Tag::Newline)
    }
}
