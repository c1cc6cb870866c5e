//! Texts of several lines that are safe to show.
ghost use Rattle.std.specs.Prelude.{◌≡◌, ◌==◌, ◌++◌, ◌∷◌, [], IfOk, IsTrue, chars, string_bytes};
ghost use Rattle.std.specs.List.{list_all, slice_split};
ghost use Rattle.casebook_text.specs.SafeText.{is_safe, is_safe_byte};
ghost use Rattle.casebook_text.specs.SafeLine.{line_end, text_of_lines};
ghost use Rattle.casebook_text.specs.declared.safe_text.Breaks.TheVariants.{Keep};

use crate::NoMem;
use crate::safe_line::SafeLine;
use std::alloc::Global;

/// Returns lines as a text, with a newline after each.
pub fn text_of_lines(alloc: Global, lines: &[SafeLine]) -> Result<String, NoMem>
    ensures value { IfOk result (λ text. string_bytes text ≡ text_of_lines lines.now) }

    // Each character is harmless or a newline.
    ensures characters { IfOk result (λ text.
        IsTrue (list_all (is_safe Keep) (chars (string_bytes text)))) }

    // No byte is a control code of ASCII, but for newlines.
    ensures bytes { IfOk result (λ text.
        IsTrue (list_all (is_safe_byte Keep) (string_bytes text))) }

    // Newlines are at the ends of these lines alone.
    ensures lines { IfOk result (λ text.
        slice_split (λ b. b == line_end) (string_bytes text) ≡ lines.now ++ [] ∷ []) }
{
    let mut text = String::new(alloc);
    for line in lines {
        text.push_str(line.as_str())?;
        text.push('\n')?;
    }
    Ok(text)
}
