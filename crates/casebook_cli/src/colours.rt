//! Colours of a terminal: codes before and after a line (ECMA-48, Select Graphic Rendition).
ghost use Rattle.std.specs.Prelude.{◌≡◌, ◌++◌, true, not, IfOk, IsTrue, OnOk, string_bytes};
ghost use Rattle.casebook_cli.specs.Colours.{code_of, coloured_line, end_of, shown_lines, style_of};
ghost use Rattle.casebook_cli.specs.Colours.{style_of_byte};
ghost use Rattle.casebook_cli.specs.Harmless.{IsHarmless};

use crate::NoMem;
use crate::plain::plain_lines;
use crate::style::Style;
use casebook_text::SafeLine;
use std::alloc::Global;

/// Returns how a line is shown that begins with this byte.
fn style_of_byte(byte: u8) -> Style
    ensures { result ≡ style_of_byte byte }
{
    match byte {
        b'+' => Style::Added,
        b'-' => Style::Removed,
        b'@' => Style::Place,
        b'A'..=b'Z' => Style::Head,
        _ => Style::Plain,
    }
}

/// Returns how a line is shown.
fn style_of(line: &[u8]) -> Style
    ensures { result ≡ style_of line.now }
{
    match line {
        [byte, ..] => style_of_byte(*byte),
        [] => Style::Plain,
    }
}

/// Returns the code before a line.
fn code_of(style: Style) -> &'static str
    ensures { result.now ≡ code_of style }
{
    match style {
        Style::Plain => "",
        Style::Head => "\u{1B}[1m",
        Style::Added => "\u{1B}[32m",
        Style::Removed => "\u{1B}[31m",
        Style::Place => "\u{1B}[36m",
    }
}

/// Returns the code after a line.
fn end_of(style: Style) -> &'static str
    ensures { result.now ≡ end_of style }
{
    match style {
        Style::Plain => "",
        _ => "\u{1B}[0m",
    }
}

/// Appends a line with its codes, and a newline.
fn push_line(text: &mut String, line: &SafeLine) -> Result<(), NoMem>
    ensures { OnOk result
        (string_bytes text.new ≡ string_bytes text.old ++ coloured_line line.now) }
{
    let style = style_of(line.as_str().as_bytes());
    text.push_str(code_of(style))?;
    text.push_str(line.as_str())?;
    text.push_str(end_of(style))?;
    text.push('\n')
}

/// Returns lines as a text with colours, with a newline after each.
fn coloured_text(alloc: Global, lines: &[SafeLine]) -> Result<String, NoMem>
    ensures { IfOk result (λ text. string_bytes text ≡ shown_lines true lines.now) }
{
    let mut text = String::new(alloc);
    for line in lines {
        push_line(&mut text, line)?;
    }
    Ok(text)
}

/// Returns lines as a text, with a newline after each, and with colours if they are wanted.
pub(crate) fn shown_lines(alloc: Global, lines: &[SafeLine], colours: bool) -> Result<String, NoMem>
    ensures value { IfOk result (λ text. string_bytes text ≡ shown_lines colours lines.now) }
    ensures harmless { IfOk result (λ text.
        IsTrue (not colours) → IsHarmless (string_bytes text)) }
{
    if colours {
        coloured_text(alloc, lines)
    } else {
        plain_lines(alloc, lines)
    }
}
