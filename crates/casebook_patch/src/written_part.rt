//! The parts of a patch as they are written.
ghost use Rattle.std.specs.Prelude.{◌≡◌, ◌+◌, ◌<◌, ◌^◌, ◌++◌, OnOk, decimal, flat_map};
ghost use Rattle.casebook_patch.specs.Written.{is_ended, part_head, sign, written_line};
ghost use Rattle.casebook_patch.specs.Written.{written_part, written_span};

use crate::NoMem;
use crate::part::Part;
use casebook_text::{Mark, Span};
use itoa::Buffer;

/// Returns the sign of a line: whether it is in both texts, in the old one or in the new one.
fn sign(mark: Mark) -> u8
    ensures { result ≡ sign mark }
{
    match mark {
        Mark::Same => b' ',
        Mark::Removed => b'-',
        Mark::Added => b'+',
    }
}

/// Returns whether a line has its newline.
fn is_ended(line: &[u8]) -> bool
    ensures { result ≡ is_ended line.now }
{
    match line {
        [.., last] => *last == b'\n',
        [] => false,
    }
}

/// Appends a line of a part.
fn push_line(text: &mut Vec<u8>, line: (Mark, &str)) -> Result<(), NoMem>
    ensures { OnOk result (text.new.items ≡ text.old.items ++ written_line line.entry) }
{
    text.push(sign(line.0))?;
    text.extend_from_slice(line.1.as_bytes())?;
    if is_ended(line.1.as_bytes()) {
        return Ok(());
    }
    text.extend_from_slice(b"\n\\ No newline at end of file\n")
}

/// Appends a number.
pub(crate) fn push_number(text: &mut Vec<u8>, number: usize) -> Result<(), NoMem>
    ensures { OnOk result (text.new.items ≡ text.old.items ++ decimal number) }
{
    text.extend_from_slice(Buffer::new().format(number).as_bytes())
}

/// Appends which lines of a text a part has.
fn push_span(text: &mut Vec<u8>, span: Span) -> Result<(), NoMem>
    requires { span.before + 1 < 2 ^ 64 }
    ensures { OnOk result (text.new.items ≡ text.old.items ++ written_span span) }
{
    if span.count == 0 {
        push_number(text, span.before)?;
    } else {
        push_number(text, span.before + 1)?;
    }
    if span.count == 1 {
        return Ok(());
    }
    text.push(b',')?;
    push_number(text, span.count)
}

/// Appends the head of a part.
fn push_head(text: &mut Vec<u8>, part: &Part<'_>) -> Result<(), NoMem>
    ensures { OnOk result (text.new.items ≡ text.old.items ++ part_head part.now) }
{
    text.extend_from_slice(b"@@ -")?;
    push_span(text, part.old)?;
    text.extend_from_slice(b" +")?;
    push_span(text, part.new)?;
    text.extend_from_slice(b" @@\n")
}

/// Appends a part: its head and its lines.
fn push_part(text: &mut Vec<u8>, part: &Part<'_>) -> Result<(), NoMem>
    ensures { OnOk result (text.new.items ≡ text.old.items ++ written_part part.now) }
{
    push_head(text, part)?;
    for line in &part.lines {
        push_line(text, *line)?;
    }
    Ok(())
}

/// Appends parts, one after another.
pub(crate) fn push_parts(text: &mut Vec<u8>, parts: &[Part<'_>]) -> Result<(), NoMem>
    ensures { OnOk result (text.new.items ≡ text.old.items ++ flat_map written_part parts.now) }
{
    for part in parts {
        push_part(text, part)?;
    }
    Ok(())
}
