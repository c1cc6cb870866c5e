//! Bytes as text that is safe to show.
ghost use Rattle.std.specs.Prelude.{◌≡◌, ◌<◌, ◌++◌, ◌∷◌, [], IfOk, OnOk, string_bytes};
ghost use Rattle.std.specs.Prelude.{encode_utf8_all, codes};
ghost use Rattle.casebook_text.specs.SafeText.{hex_digit, hex_digits, code_width, is_harmless};
ghost use Rattle.casebook_text.specs.SafeText.{is_shown, shown, character, in_brackets, safe_text};
ghost use Rattle.casebook_text.specs.SafeText.{keeps_breaks, keeps_spaces, blurs_words};
ghost use Rattle.std.specs.Prelude.{flat_map, IsTrue, chars};
ghost use Rattle.std.specs.List.{list_all};
ghost use Rattle.casebook_text.specs.SafeText.{is_safe, is_safe_byte, is_plain, original};

use crate::NoMem;
use bstr::decode_utf8;
use std::alloc::Global;
use ucd_category::{GeneralCategory, GeneralCategoryGroup};
use ucd_derived::is_default_ignorable_code_point;

/// The pattern of Braille without a dot.
const BLANK_PATTERN: char = '\u{2800}';

/// Which white space is shown as itself.
#[derive(Clone, Copy, Debug, PartialEq, Eq)]
pub enum Breaks {
    /// Newlines, tabs and spaces: for text of several lines.
    Keep,
    /// Spaces alone: for text in one line. Newlines and tabs are shown by their codes.
    Show,
    /// None, all are shown by their codes, and so are marks, which combine with the character
    /// before them: for a word among others.
    Words,
}

impl Breaks {
    /// Returns whether newlines and tabs are shown as themselves.
    fn are_kept(self) -> bool
        ensures { result ≡ keeps_breaks self }
    {
        matches!(self, Breaks::Keep)
    }

    /// Returns whether spaces are shown as themselves.
    fn keeps_spaces(self) -> bool
        ensures { result ≡ keeps_spaces self }
    {
        !matches!(self, Breaks::Words)
    }
}

/// Returns whether a character is the space or can be seen: its general category isn't in the
/// groups Other (control, format, surrogate, private use, unassigned) and Separator (Unicode
/// Standard, section 4.5), it isn't ignorable by default (section 5.21), and it isn't the pattern
/// of Braille without a dot.
#[tactic(auto, unfolding(crate::specs::SafeText::is_harmless))]
fn is_harmless(c: char) -> bool
    ensures { result ≡ is_harmless c }
{
    if c == ' ' {
        return true;
    }
    if is_default_ignorable_code_point(c) || c == BLANK_PATTERN {
        return false;
    }
    let category = GeneralCategory::for_char(c);
    !(GeneralCategoryGroup::Other.contains(category)
        || GeneralCategoryGroup::Separator.contains(category))
}

/// Returns whether a character is a space or a mark.
#[tactic(auto, unfolding(crate::specs::SafeText::blurs_words))]
fn blurs_words(c: char) -> bool
    ensures { result ≡ blurs_words c }
{
    c == ' ' || GeneralCategoryGroup::Mark.contains(GeneralCategory::for_char(c))
}

/// Returns whether a character is shown as itself.
#[tactic(auto, unfolding(crate::specs::SafeText::is_shown))]
fn is_shown(c: char, breaks: Breaks) -> bool
    ensures { result ≡ is_shown breaks c }
{
    if c == '⟨' || c == '⟩' {
        return false;
    }
    if c == '\n' || c == '\t' {
        return breaks.are_kept();
    }
    is_harmless(c) && (breaks.keeps_spaces() || !blurs_words(c))
}

/// Returns the upper-case hexadecimal digit of a number under 16.
fn hex_digit(number: u32) -> char
    requires { number < 16 }
    ensures { result ≡ hex_digit number }
{
    match char::from_digit(number, 16) {
        Some(digit) => digit.to_ascii_uppercase(),
        None => unreachable!(),
    }
}

/// Appends the last `count` hexadecimal digits of a number.
fn push_digits(text: &mut String, number: u32, count: u8) -> Result<(), NoMem>
    ensures { OnOk result (string_bytes text.new
        ≡ string_bytes text.old ++ encode_utf8_all (hex_digits count number)) }
{
    if count == 0 {
        return Ok(());
    }
    push_digits(text, number / 16, count - 1)?;
    text.push(hex_digit(number % 16))
}

/// Returns with how many digits the code of a character is written: at least four (Unicode
/// Standard, appendix A).
fn code_width(c: char) -> u8
    ensures { result ≡ code_width c }
{
    match c {
        '\0'..='\u{FFFF}' => 4,
        '\u{10000}'..='\u{FFFFF}' => 5,
        _ => 6,
    }
}

/// Appends a character, or its code if it isn't to be shown as itself.
fn push_character(text: &mut String, c: char, breaks: Breaks) -> Result<(), NoMem>
    ensures { OnOk result (string_bytes text.new
        ≡ string_bytes text.old ++ encode_utf8_all (shown breaks (character c))) }
{
    if is_shown(c, breaks) {
        return text.push(c);
    }
    text.push_str("⟨U+")?;
    push_digits(text, u32::from(c), code_width(c))?;
    text.push('⟩')
}

/// Appends the code of a byte that belongs to no character.
fn push_stray(text: &mut String, byte: u8) -> Result<(), NoMem>
    ensures { OnOk result (string_bytes text.new
        ≡ string_bytes text.old ++ encode_utf8_all (in_brackets (hex_digits 2 byte))) }
{
    text.push('⟨')?;
    push_digits(text, u32::from(byte), 2)?;
    text.push('⟩')
}

/// Appends the codes of bytes that belong to no character.
fn push_all_stray(text: &mut String, bytes: &[u8]) -> Result<(), NoMem>
    ensures { OnOk result (string_bytes text.new ≡ string_bytes text.old
        ++ encode_utf8_all (flat_map (λ byte. in_brackets (hex_digits 2 byte)) bytes.now)) }
{
    for byte in bytes {
        push_stray(text, *byte)?;
    }
    Ok(())
}

/// Returns bytes as a text that is safe to show. The bytes are read as UTF-8 (Unicode Standard,
/// table 3-7). A harmless character is shown as itself, unless it is one of the brackets `⟨` and
/// `⟩`; with `Breaks::Keep` so are newlines and tabs, and with `Breaks::Words` spaces and marks
/// aren't. Any other character is shown by its code, as `⟨U+001B⟩`, and a byte that belongs to no
/// character as `⟨1B⟩`.
///
/// A character is harmless if it is the space or can be seen. Its general category isn't in the
/// groups Other (control, format, surrogate, private use, unassigned) and Separator (Unicode
/// Standard, section 4.5), it isn't ignorable by default (section 5.21), and it isn't the pattern
/// of Braille without a dot.
pub fn safe(alloc: Global, bytes: &[u8], breaks: Breaks) -> Result<String, NoMem>
    ensures value { IfOk result (λ text.
        string_bytes text ≡ encode_utf8_all (safe_text breaks bytes.now)) }

    // Each character is harmless, or a newline or a tab that is kept.
    ensures characters { IfOk result (λ text.
        IsTrue (list_all (is_safe breaks) (chars (string_bytes text)))) }

    // No byte is a control code of ASCII, but for a newline or a tab that is kept.
    ensures bytes { IfOk result (λ text.
        IsTrue (list_all (is_safe_byte breaks) (string_bytes text))) }

    // Printable ASCII is shown as itself, but for spaces that are shown by their code.
    ensures ascii { IsTrue (list_all (is_plain breaks) bytes.now)
        → IfOk result (λ text. string_bytes text ≡ bytes.now) }

    // What is shown stands for these bytes, and so for no others.
    ensures original { IfOk result (λ text. original (chars (string_bytes text)) ≡ bytes.now) }
{
    let mut text = String::new(alloc);
    let mut rest = bytes;
    while !rest.is_empty() {
        let (found, size) = decode_utf8(rest);
        let (piece, after) = rest.split_at(size);
        match found {
            Some(c) => push_character(&mut text, c, breaks)?,
            None => push_all_stray(&mut text, piece)?,
        }
        rest = after;
    }
    Ok(text)
}
