//! Tilde prefixes (XCU 2.6.1).

ghost use Rattle.std.specs.Prelude.{
  ◌≡◌,
  Option,
  None,
  Some,
  map,
  option_map,
  take,
  drop,
  false,
  true,
};
ghost use Rattle.std.specs.Str.{IsCharBoundary};
ghost use Rattle.retro_syntax.specs.Tildes;
ghost use Rattle.retro_syntax.specs.Tildes.{tilde_prefix_view};
ghost use Rattle.retro_syntax.specs.View.{piece_view, word_view};

use crate::tree::{Assignment, Piece, Word};

/// A tilde prefix, and the rest of the word's first piece.
#[derive(Clone, Copy)]
pub struct TildePrefix<'a> {
    /// The login name after the `~`. Empty for a bare `~`.
    pub login: &'a str,
    /// The rest of the piece: empty, or a slash (in an assigned value a slash or colon) and the
    /// text after it.
    pub rest: &'a str,
}

/// Returns whether a byte ends a login name.
fn ends_login(in_value: bool, byte: u8) -> bool
    ensures { result ≡ Tildes.ends_login in_value byte }
{
    byte == b'/' || (in_value && byte == b':')
}

/// Returns the length of the login name at the start of a text, in bytes.
fn login_length(in_value: bool, text: &str) -> usize
    ensures boundary { IsCharBoundary text.now result }
    ensures login { take result text.now ≡ Tildes.login_of in_value text.now }
    ensures rest { drop result text.now ≡ Tildes.after_login in_value text.now }
{
    let mut length = 0;
    let mut rest = text.as_bytes();
    while let [first, more @ ..] = rest {
        if ends_login(in_value, *first) {
            return length;
        }
        length += 1;
        rest = more;
    }
    length
}

/// Returns the tilde prefix of a word whose first piece is this unquoted text, or `None` if it has
/// none. `is_only` says whether the word has no other piece.
fn prefix_of<'a>(in_value: bool, is_only: bool, text: &'a str) -> Option<TildePrefix<'a>>
    ensures { option_map tilde_prefix_view result ≡ Tildes.prefix_of in_value is_only text.now }
{
    let after = text.strip_prefix('~')?;
    let (login, rest) = after.split_at(login_length(in_value, after));
    if is_only || !rest.is_empty() {
        Some(TildePrefix { login, rest })
    } else {
        None
    }
}

/// Returns the tilde prefix of a word of these pieces, or `None` if it has none.
fn prefix_at<'a>(in_value: bool, pieces: &'a [Piece]) -> Option<TildePrefix<'a>>
    ensures { option_map tilde_prefix_view result
        ≡ Tildes.tilde_prefix in_value (map piece_view pieces.now) }
{
    match pieces {
        [] => None,
        [first, more @ ..] => match first {
            Piece::Plain(text) => prefix_of(in_value, more.is_empty(), text),
            Piece::Quoted(_) | Piece::Parameter(_) | Piece::QuotedParameter(_) => None,
        },
    }
}

impl Word {
    /// Returns the word's tilde prefix, or `None` if it has none.
    ///
    /// The prefix is an unquoted `~` at the word's start and the unquoted text up to the first
    /// slash or the end of the word. A word with a quote or a parameter before that has no prefix.
    pub fn tilde_prefix(&self) -> Option<TildePrefix<'_>>
        ensures { option_map tilde_prefix_view result
            ≡ Tildes.tilde_prefix false (word_view self.now) }
    {
        prefix_at(false, &self.pieces)
    }
}

impl Assignment {
    /// Returns the tilde prefix of the value, or `None` if it has none. A colon ends the prefix
    /// too.
    pub fn tilde_prefix(&self) -> Option<TildePrefix<'_>>
        ensures { option_map tilde_prefix_view result
            ≡ Tildes.tilde_prefix true (word_view self.now.value) }
    {
        prefix_at(true, &self.value.pieces)
    }
}
