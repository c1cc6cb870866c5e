//! The first line of a text.
ghost use Rattle.std.specs.Prelude.{◌≡◌, ◌==◌, ◌<◌, ◌∷◌, [], IfSome, MatchOption, length, option_map};
ghost use Rattle.std.specs.List.{position, slice_get};
ghost use Rattle.casebook_words.specs.Lines.{line_of, lines_of, newline, texts_in};

/// The first line of a text, and what follows it.
#[derive(Drop)]
pub(crate) struct FirstLine<'a> {
    /// The line, without its newline.
    pub(crate) text: &'a [u8],
    /// Whether a newline ends it.
    pub(crate) is_ended: bool,
    /// The text after it.
    pub(crate) rest: &'a [u8],
}

/// Returns the index of the first newline in a text, or `None` if it has none.
fn newline_in(text: &[u8]) -> Option<usize>
    ensures { result ≡ position (λ b. b == newline) text.now }
{
    text.iter().position(|byte| *byte == b'\n')
}

/// Returns the first line of a text and what follows it, or `None` if the text is empty. A last
/// line without a newline is a line too.
pub(crate) fn split_line(text: &[u8]) -> Option<FirstLine<'_>>
    ensures lines { MatchOption result (lines_of text.now ≡ []) (λ first. lines_of text.now
        ≡ line_of first.text.now first.is_ended ∷ lines_of first.rest.now) }
    ensures shorter { IfSome result (λ first. length first.rest.now < length text.now) }
{
    if text.is_empty() {
        return None;
    }
    match newline_in(text) {
        Some(end) => Some(FirstLine {
            text: &text[..end],
            is_ended: true,
            rest: &text[end + 1..],
        }),
        None => Some(FirstLine {
            text,
            is_ended: false,
            rest: &[],
        }),
    }
}

/// Returns the first line of a text without its newline, or `None` if the text is empty.
pub(crate) fn text_at_front(text: &[u8]) -> Option<&[u8]>
    ensures value { option_map (λ line. line.now) result ≡ slice_get (texts_in text.now) 0 }
{
    match split_line(text) {
        Some(first) => Some(first.text),
        None => None,
    }
}

/// Returns how many lines a text has.
pub(crate) fn count_lines(text: &[u8]) -> usize
    ensures { result ≡ length (lines_of text.now) }
{
    let mut count = 0_usize;
    let mut rest = text;
    while let Some(first) = split_line(rest) {
        count += 1;
        rest = first.rest;
    }
    count
}
