//! Unified diffs of texts.
ghost use Rattle.std.specs.Prelude.{◌≡◌, ◌<◌, ◌≤◌, ◌++◌, IfOk, OnOk, decimal, flat_map, length, map};
ghost use Rattle.std.specs.Prelude.{slice_range};
ghost use Rattle.std.specs.List.{All};
ghost use Rattle.casebook_text.specs.Diff.{in_new, in_old, marked};
ghost use Rattle.casebook_screen.specs.Unified.{IsUnified, part_head, part_lines, sign_words};
ghost use Rattle.casebook_screen.specs.Unified.{signed_line, span_words};
ghost use Rattle.casebook_screen.specs.inner.Parts.{IsWithin, after_line, next_text};

use crate::NoMem;
use casebook_text::{Hunk, Mark, SafeLine, Span, hunks};
use casebook_words::FileLines;
use std::alloc::Global;

/// How many lines are shown before and after lines that differ.
const CONTEXT: usize = 3;

/// Appends the sign of a line: whether it is in both texts, in the old one or in the new one.
#[tactic(auto, unfolding(crate::specs::Unified::sign_words))]
fn push_sign(line: &mut SafeLine, mark: Mark) -> Result<(), NoMem>
    ensures { OnOk result (line.new ≡ line.old ++ sign_words mark) }
{
    match mark {
        Mark::Same => line.push_ascii(" "),
        Mark::Removed => line.push_ascii("-"),
        Mark::Added => line.push_ascii("+"),
    }
}

/// Returns the first of some lines, if there is one, after its sign.
fn signed_line(alloc: Global, mark: Mark, rest: &[SafeLine]) -> Result<SafeLine, NoMem>
    ensures { IfOk result (λ line. line ≡ sign_words mark ++ next_text rest.now) }
{
    let mut line = SafeLine::new(alloc);
    push_sign(&mut line, mark)?;
    if let [text, ..] = rest {
        line.push_line(text)?;
    }
    Ok(line)
}

/// Returns the lines that are left of a text after a line of a diff, which may be in the text.
fn after_line(is_in: bool, rest: &[SafeLine]) -> &[SafeLine]
    ensures { result.now ≡ after_line is_in rest.entry.now }
{
    match rest {
        [_, more @ ..] if is_in => more,
        _ => rest,
    }
}

/// Returns the lines of a diff after their signs. Each is taken from the text that it is in.
fn signed_lines(
    alloc: Global,
    file: &FileLines,
    merged: &[(Mark, &str)],
) -> Result<Vec<SafeLine>, NoMem>
    requires old { marked in_old merged.now ≡ file.now.old.items }
    requires new { marked in_new merged.now ≡ file.now.new.items }
    ensures { IfOk result (λ lines. lines.items ≡ map signed_line merged.now) }
{
    let mut old = file.old.as_slice();
    let mut new = file.new.as_slice();
    let mut lines = Vec::new(alloc);
    for line in merged {
        let mark = line.0;
        let rest = if mark.is_in_old() { old } else { new };
        lines.push(signed_line(alloc, mark, rest)?)?;
        old = after_line(mark.is_in_old(), old);
        new = after_line(mark.is_in_new(), new);
    }
    Ok(lines)
}

/// Appends the lines of one text that a part has: the number of the first one, and how many there
/// are if it isn't one. If there are none, the number is that of the line before.
#[tactic(auto, unfolding(crate::specs::Unified::span_words))]
fn push_span(alloc: Global, line: &mut SafeLine, span: Span) -> Result<(), NoMem>
    requires { span.before < 0xffffffffffffffff }
    ensures { OnOk result (line.new ≡ line.old ++ span_words span) }
{
    if span.count == 0 {
        line.push_number(alloc, span.before as u64)?;
    } else {
        line.push_number(alloc, span.before as u64 + 1)?;
    }
    if span.count == 1 {
        return Ok(());
    }
    line.push_ascii(",")?;
    line.push_number(alloc, span.count as u64)
}

/// Returns the head of a part: which lines of both texts it has.
#[tactic(auto, unfolding(crate::specs::Unified::part_head))]
fn part_head(alloc: Global, part: &Hunk) -> Result<SafeLine, NoMem>
    requires old { part.now.old.before < 0xffffffffffffffff }
    requires new { part.now.new.before < 0xffffffffffffffff }
    ensures { IfOk result (λ line. line ≡ part_head part.now) }
{
    let mut line = SafeLine::new(alloc);
    line.push_ascii("@@ -")?;
    push_span(alloc, &mut line, part.old)?;
    line.push_ascii(" +")?;
    push_span(alloc, &mut line, part.new)?;
    line.push_ascii(" @@")?;
    Ok(line)
}

/// Appends copies of lines.
fn push_copies(alloc: Global, lines: &mut Vec<SafeLine>, others: &[SafeLine]) -> Result<(), NoMem>
    ensures { OnOk result (lines.new.items ≡ lines.old.items ++ others.now) }
{
    for other in others {
        let mut line = SafeLine::new(alloc);
        line.push_line(other)?;
        lines.push(line)?;
    }
    Ok(())
}

/// Appends a part of a diff: its head and its lines.
fn push_part(
    alloc: Global,
    lines: &mut Vec<SafeLine>,
    signed: &[SafeLine],
    part: &Hunk,
) -> Result<(), NoMem>
    requires { IsWithin signed.now part.now }
    ensures { OnOk result (lines.new.items ≡ lines.old.items ++ part_lines signed.now part.now) }
{
    lines.push(part_head(alloc, part)?)?;
    push_copies(alloc, lines, &signed[part.from..part.to])
}

/// Returns parts of a diff, one after another.
fn lines_of_parts(
    alloc: Global,
    signed: &[SafeLine],
    parts: &[Hunk],
) -> Result<Vec<SafeLine>, NoMem>
    requires { All (IsWithin signed.now) parts.now }
    ensures { IfOk result (λ lines. lines.items ≡ flat_map (part_lines signed.now) parts.now) }
{
    let mut lines = Vec::new(alloc);
    for part in parts {
        push_part(alloc, &mut lines, signed, part)?;
    }
    Ok(lines)
}

/// Returns a unified diff of two texts, without its first two lines, which name the texts.
pub(crate) fn unified_lines(alloc: Global, file: &FileLines) -> Result<Vec<SafeLine>, NoMem>
    ensures { IfOk result (λ lines.
        IsUnified file.now.old.items file.now.new.items lines.items) }
{
    let merged = file.merged(alloc)?;
    let parts = hunks(alloc, merged.as_slice(), CONTEXT)?;
    let signed = signed_lines(alloc, file, merged.as_slice())?;
    lines_of_parts(alloc, signed.as_slice(), parts.as_slice())
}
