//! Values that are cut to a limit.
ghost use Rattle.std.specs.Prelude.{◌≡◌, ◌≤◌, ◌++◌, OnOk};
ghost use Rattle.casebook_words.specs.Cut.{continues, cut_end, cut_words, first_text, may_begin};

use crate::NoMem;
use crate::first_line::text_at_front;
use casebook_text::SafeLine;
use std::alloc::Global;

/// The greatest number of bytes of a character after its first one.
const MOST_BYTES_BACK: usize = 3;

/// Returns whether a byte continues a character in UTF-8.
fn continues(byte: u8) -> bool
    ensures { result ≡ continues byte }
{
    (128..192).contains(&byte)
}

/// Returns whether a character may begin at an index, or whether the bytes end there.
#[tactic(auto, unfolding(crate::specs::Cut::may_begin))]
fn may_begin(bytes: &[u8], index: usize) -> bool
    ensures { result ≡ may_begin bytes.now index }
{
    !continues(bytes.get(index).copied().unwrap_or(0))
}

/// Returns where bytes are cut: at the limit, or up to three bytes before it, so that no character
/// is split.
fn cut_end(bytes: &[u8], limit: usize) -> usize
    ensures value { result ≡ cut_end limit bytes.now }
    ensures within { result ≤ limit }
{
    for back in 0..MOST_BYTES_BACK + 1 {
        let end = limit.saturating_sub(back);
        if may_begin(bytes, end) {
            return end;
        }
    }
    limit
}

/// Appends bytes. If there are more than `limit`, they are cut, and an ellipsis says so.
#[tactic(auto, unfolding(crate::specs::Cut::cut_words))]
pub fn push_cut(alloc: Global, line: &mut SafeLine, bytes: &[u8], limit: usize) -> Result<(), NoMem>
    ensures { OnOk result (line.new ≡ line.old ++ cut_words limit bytes.now) }
{
    if bytes.len() <= limit {
        return line.push_bytes(alloc, bytes);
    }
    line.push_bytes(alloc, &bytes[..cut_end(bytes, limit)])?;
    line.push_ellipsis()
}

/// Appends the first line of a text, cut to a limit. A text without lines gives nothing.
pub fn push_first_line(
    alloc: Global,
    line: &mut SafeLine,
    text: &[u8],
    limit: usize,
) -> Result<(), NoMem>
    ensures { OnOk result (line.new ≡ line.old ++ cut_words limit (first_text text.now)) }
{
    match text_at_front(text) {
        Some(first) => push_cut(alloc, line, first, limit),
        None => push_cut(alloc, line, &[], limit),
    }
}
