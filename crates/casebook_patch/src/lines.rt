//! The lines of files.
ghost use Rattle.std.specs.Prelude.{◌≡◌, ◌==◌, ◌∷◌, ◌<◌, IfOk, MatchOption, length, map};
ghost use Rattle.std.specs.List.{position};
ghost use Rattle.retro_path.specs.Ascii.{newline};
ghost use Rattle.casebook_patch.specs.Lines.{IsText, lines_of};

use crate::NoMem;
use std::alloc::Global;
use std::str;

/// Returns the index of the first newline in a text, or `None` if it has none.
fn newline_in(text: &[u8]) -> Option<usize>
    ensures { result ≡ position (λ b. b == newline) text.now }
{
    text.iter().position(|byte| *byte == b'\n')
}

/// Returns the first line of a text with its newline, if it has one, and what follows.
fn split_line(text: &[u8]) -> (&[u8], &[u8])
    requires { 0 < length text.now }
    ensures lines { lines_of text.entry.now ≡ result.0.now ∷ lines_of result.1.now }
    ensures shorter { length result.1.now < length text.entry.now }
{
    match newline_in(text) {
        Some(end) => (&text[..end + 1], &text[end + 1..]),
        None => (text, &[]),
    }
}

/// Returns the lines of a file, each with its newline, or `None` if it isn't text.
pub(crate) fn text_lines(alloc: Global, bytes: &[u8]) -> Result<Option<Vec<&str>>, NoMem>
    ensures { IfOk result (λ found. MatchOption found (¬ (IsText bytes.now))
        (λ lines. IsText bytes.now × (map (λ line. line.now) lines.items ≡ lines_of bytes.now))) }
{
    if bytes.contains(&0) {
        return Ok(None);
    }
    let mut lines = Vec::new(alloc);
    let mut rest = bytes;
    while !rest.is_empty() {
        let (line, more) = split_line(rest);
        let Ok(text) = str::from_utf8(line) else {
            return Ok(None);
        };
        lines.push(text)?;
        rest = more;
    }
    Ok(Some(lines))
}
