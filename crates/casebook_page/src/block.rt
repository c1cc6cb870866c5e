//! Texts of several lines, cut in the middle if they are long. They tell nothing of the repair.
ghost use Rattle.std.specs.Prelude.{◌≡◌, OnOk};

use crate::NoMem;
use crate::text_line::{Form, TextLine};
use casebook_html::{Html, Tag};
use casebook_text::SafeLine;
use casebook_words::push_count;
use std::alloc::Global;

/// A text with more lines is cut.
const LINE_LIMIT: usize = 64;

/// A text with more bytes is cut.
const BYTE_LIMIT: usize = 8192;

/// How much more is written of the front or of the back of a text that is cut.
#[derive(Drop)]
struct Room {
    /// How many more lines.
    lines: usize,
    /// How many more bytes.
    bytes: usize,
}

impl Room {
    /// Returns the room of the front or of the back: half of what is written.
    fn half() -> Room {
        Room {
            lines: LINE_LIMIT / 2,
            bytes: BYTE_LIMIT / 2,
        }
    }

    /// Takes the room of a line, and returns whether there was enough. A line that alone is longer
    /// than half of what is written is cut, and takes that half.
    fn take(&mut self, line: &TextLine<'_>) -> bool {
        let bytes = line.text.len().min(BYTE_LIMIT / 2);
        if self.lines == 0 || self.bytes < bytes {
            return false;
        }
        self.lines -= 1;
        self.bytes -= bytes;
        true
    }
}

/// Returns how many bytes lines have, with their newlines.
fn count_bytes(lines: &[TextLine<'_>]) -> usize {
    let mut bytes = 0_usize;
    for line in lines {
        bytes = bytes
            .saturating_add(line.text.len())
            .saturating_add(usize::from(line.is_ended));
    }
    bytes
}

/// Returns how many lines are written of the front of a text that is cut.
fn count_front(lines: &[TextLine<'_>]) -> usize {
    let mut room = Room::half();
    let mut count = 0_usize;
    for line in lines {
        if !room.take(line) {
            return count;
        }
        count = count.saturating_add(1);
    }
    count
}

/// Returns how many lines are written of the back of a text that is cut.
fn count_back(lines: &[TextLine<'_>]) -> usize {
    let mut room = Room::half();
    let mut count = 0_usize;
    for line in lines.iter().rev() {
        if !room.take(line) {
            return count;
        }
        count = count.saturating_add(1);
    }
    count
}

/// Appends lines, each cut to a limit.
fn push_lines(
    html: &mut Html,
    alloc: Global,
    lines: &[TextLine<'_>],
    form: Form,
    limit: usize,
) -> Result<(), NoMem>
    ensures { OnOk result (html.new ≡ html.old) }
{
    for line in lines {
        line.push(html, alloc, form, limit)?;
    }
    Ok(())
}

/// Appends how much is left out, unless it is nothing.
fn push_left_out(html: &mut Html, alloc: Global, lines: &[TextLine<'_>]) -> Result<(), NoMem>
    ensures { OnOk result (html.new ≡ html.old) }
{
    if lines.is_empty() {
        return Ok(());
    }
    let mut line = SafeLine::new(alloc);
    line.push_ascii(".. ")?;
    push_count(alloc, &mut line, lines.len(), "line")?;
    line.push_ascii(", ")?;
    push_count(alloc, &mut line, count_bytes(lines), "byte")?;
    line.push_ascii(" left out ..")?;
    html.fixed(Tag::Cut)?;
    html.aside(line)?;
    html.fixed(Tag::CutEnd)?;
    html.fixed(Tag::Newline)
}

/// Appends a text. If it has over 64 lines or over 8 KiB, it is cut in the middle, and the cut says
/// how much is missing.
pub(crate) fn push_block(
    html: &mut Html,
    alloc: Global,
    lines: &[TextLine<'_>],
    form: Form,
) -> Result<(), NoMem>
    ensures { OnOk result (html.new ≡ html.old) }
{
    if lines.len() <= LINE_LIMIT && count_bytes(lines) <= BYTE_LIMIT {
        return push_lines(html, alloc, lines, form, BYTE_LIMIT);
    }
    let (front, rest) = lines.split_at(count_front(lines).min(lines.len()));
    let back_length = count_back(rest).min(rest.len());
    let (middle, back) = rest.split_at(rest.len() - back_length);
    push_lines(html, alloc, front, form, BYTE_LIMIT / 2)?;
    push_left_out(html, alloc, middle)?;
    push_lines(html, alloc, back, form, BYTE_LIMIT / 2)
}
