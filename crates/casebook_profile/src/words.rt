//! Words that bash reads as Retro's shell does.
ghost use Rattle.std.specs.Prelude.{◌≡◌, IfOk, map, option_map, string_bytes};
ghost use Rattle.std.specs.List.{list_all, list_any};
ghost use Rattle.retro_syntax.specs.Tildes.{tilde_prefix_view};
ghost use Rattle.retro_syntax.specs.View.{piece_view, word_view};
ghost use Rattle.casebook_usage.specs.Shape.{shape_view};
ghost use Rattle.casebook_profile.specs.Words as Words;
ghost use Rattle.casebook_profile.specs.inner.Scopes.{scope_view};

use crate::NoMem;
use crate::characters::{among, has_any, has_other, has_pattern, hides_tilde};
use crate::scope::Scope;
use casebook_usage::Shape;
use retro_syntax::TildePrefix;
use retro_syntax::tree::{Assignment, Piece, Word};
use std::alloc::Global;

/// Returns whether a text is a login name: bash has `~+`, `~-` and `~N` of its own.
fn is_login(text: &[u8]) -> bool
    ensures { result ≡ Words.is_login text.now }
{
    match text {
        [] => true,
        [first, ..] => !(among(b"+-", *first) || first.is_ascii_digit()),
    }
}

/// Returns whether a tilde prefix has a login name.
fn has_login(prefix: Option<TildePrefix<'_>>) -> bool
    ensures { result ≡ Words.has_login (option_map tilde_prefix_view prefix.entry) }
{
    match prefix {
        Some(prefix) => is_login(prefix.login.as_bytes()),
        None => true,
    }
}

/// Returns whether a piece of a word is read alike.
fn is_clear_piece(scope: &Scope<'_, '_>, piece: &Piece) -> bool
    ensures { result ≡ Words.is_clear_piece (scope_view scope.now) (piece_view piece.now) }
{
    match piece {
        Piece::Plain(text) => !has_pattern(text.as_bytes()) && !hides_tilde(text.as_bytes()),
        Piece::Quoted(_) => true,
        Piece::Parameter(parameter) => scope.is_plain(parameter),
        Piece::QuotedParameter(parameter) => scope.is_known(parameter),
    }
}

/// Returns whether all pieces of a word are read alike.
fn are_clear_pieces(scope: &Scope<'_, '_>, pieces: &[Piece]) -> bool
    ensures { result ≡ list_all (Words.is_clear_piece (scope_view scope.now))
        (map piece_view pieces.now) }
{
    let mut rest = pieces;
    while let [first, more @ ..] = rest {
        if !is_clear_piece(scope, first) {
            return false;
        }
        rest = more;
    }
    true
}

/// Returns whether a word of a command, of a `for` or of a redirection is read alike.
#[tactic(auto, unfolding(crate::specs::Words::is_clear))]
pub(crate) fn is_clear(scope: &Scope<'_, '_>, word: &Word) -> bool
    ensures { result ≡ Words.is_clear (scope_view scope.now) (word_view word.now) }
{
    are_clear_pieces(scope, word.pieces.as_slice()) && has_login(word.tilde_prefix())
}

/// Returns whether a piece of an assigned value is read alike.
fn is_clear_in_value(scope: &Scope<'_, '_>, piece: &Piece) -> bool
    ensures { result ≡ Words.is_clear_in_value (scope_view scope.now) (piece_view piece.now) }
{
    match piece {
        Piece::Plain(_) | Piece::Quoted(_) => true,
        Piece::Parameter(parameter) | Piece::QuotedParameter(parameter) => {
            scope.is_known(parameter)
        }
    }
}

/// Returns whether all pieces of an assigned value are read alike.
fn are_clear_in_value(scope: &Scope<'_, '_>, pieces: &[Piece]) -> bool
    ensures { result ≡ list_all (Words.is_clear_in_value (scope_view scope.now))
        (map piece_view pieces.now) }
{
    let mut rest = pieces;
    while let [first, more @ ..] = rest {
        if !is_clear_in_value(scope, first) {
            return false;
        }
        rest = more;
    }
    true
}

/// Returns whether an assigned value is read alike.
#[tactic(auto, unfolding(crate::specs::Words::is_clear_value))]
pub(crate) fn is_clear_value(scope: &Scope<'_, '_>, assignment: &Assignment) -> bool
    ensures { result
        ≡ Words.is_clear_value (scope_view scope.now) (word_view assignment.now.value) }
{
    are_clear_in_value(scope, assignment.value.pieces.as_slice())
        && has_login(assignment.tilde_prefix())
}

/// Returns the text of a piece without a parameter.
fn piece_text(piece: &Piece) -> Option<&str>
    ensures { option_map (λ text. text.now) result ≡ Words.piece_text (piece_view piece.now) }
{
    match piece {
        Piece::Plain(text) | Piece::Quoted(text) => Some(text.as_str()),
        Piece::Parameter(_) | Piece::QuotedParameter(_) => None,
    }
}

/// Returns the texts of pieces one after another, or `None` if there is a parameter.
fn pieces_text(alloc: Global, pieces: &[Piece]) -> Result<Option<String>, NoMem>
    ensures { IfOk result (λ found. option_map string_bytes found
        ≡ Words.pieces_text (map piece_view pieces.now)) }
{
    let mut text = String::new(alloc);
    for piece in pieces {
        match piece_text(piece) {
            Some(more) => text.push_str(more)?,
            None => return Ok(None),
        }
    }
    Ok(Some(text))
}

/// Returns whether a piece makes its word a field.
fn opens(piece: &Piece) -> bool
    ensures { result ≡ Words.opens (piece_view piece.now) }
{
    match piece {
        Piece::Plain(text) => !text.is_empty(),
        Piece::Quoted(_) | Piece::QuotedParameter(_) => true,
        Piece::Parameter(_) => false,
    }
}

/// Returns whether one of some pieces makes its word a field.
fn any_opens(pieces: &[Piece]) -> bool
    ensures { result ≡ list_any Words.opens (map piece_view pieces.now) }
{
    let mut rest = pieces;
    while let [first, more @ ..] = rest {
        if opens(first) {
            return true;
        }
        rest = more;
    }
    false
}

/// Returns the text that a word is in every state, or `None` if it depends on the state.
#[tactic(auto, unfolding(crate::specs::Words::literal_text))]
fn literal_text(alloc: Global, word: &Word) -> Result<Option<String>, NoMem>
    ensures { IfOk result (λ found. option_map string_bytes found
        ≡ Words.literal_text (word_view word.now)) }
{
    if word.tilde_prefix().is_some() || !any_opens(word.pieces.as_slice()) {
        return Ok(None);
    }
    pieces_text(alloc, word.pieces.as_slice())
}

/// Returns whether a text begins with another character than a dash.
fn begins_well(text: &[u8]) -> bool
    ensures { result ≡ Words.begins_well text.now }
{
    match text {
        [] => false,
        [first, ..] => *first != b'-',
    }
}

/// Returns whether a word of these pieces begins with another character than a dash in every state.
fn begins_operand(scope: &Scope<'_, '_>, pieces: &[Piece]) -> bool
    ensures { result ≡ Words.begins_operand (scope_view scope.now) (map piece_view pieces.now) }
{
    match pieces {
        [] => false,
        [Piece::Plain(text), ..] | [Piece::Quoted(text), ..] => begins_well(text.as_bytes()),
        [Piece::Parameter(parameter), ..] | [Piece::QuotedParameter(parameter), ..] => {
            scope.is_plain(parameter)
        }
    }
}

/// Returns whether a piece has a character that isn't in an option of `echo`.
fn has_other_piece(piece: &Piece) -> bool
    ensures { result ≡ Words.has_other_piece (piece_view piece.now) }
{
    match piece {
        Piece::Plain(text) | Piece::Quoted(text) => has_other(b"-neE", text.as_bytes()),
        Piece::Parameter(_) | Piece::QuotedParameter(_) => false,
    }
}

/// Returns whether one of some pieces has a character that isn't in an option of `echo`.
fn any_has_other(pieces: &[Piece]) -> bool
    ensures { result ≡ list_any Words.has_other_piece (map piece_view pieces.now) }
{
    let mut rest = pieces;
    while let [first, more @ ..] = rest {
        if has_other_piece(first) {
            return true;
        }
        rest = more;
    }
    false
}

/// Returns what is known of a word whose text depends on the state.
fn unknown_shape(scope: &Scope<'_, '_>, word: &Word) -> Shape
    ensures { shape_view result ≡ Words.unknown_shape (scope_view scope.now) (word_view word.now) }
{
    if begins_operand(scope, word.pieces.as_slice()) {
        Shape::Operand
    } else if any_has_other(word.pieces.as_slice()) {
        Shape::Phrase
    } else {
        Shape::Loose
    }
}

/// Returns what is known of a word before its line runs, if the word is read alike.
#[tactic(auto, unfolding(crate::specs::Words::shape_of))]
pub(crate) fn shape_of(alloc: Global, scope: &Scope<'_, '_>, word: &Word) -> Result<Shape, NoMem>
    ensures { IfOk result (λ shape. shape_view shape
        ≡ Words.shape_of (scope_view scope.now) (word_view word.now)) }
{
    match literal_text(alloc, word)? {
        Some(text) => Ok(Shape::Literal(text)),
        None => Ok(unknown_shape(scope, word)),
    }
}

/// Returns whether a text is a plain word: not empty, no dash before it, no blank and no pattern.
fn is_plain_text(text: &[u8]) -> bool
    ensures { result ≡ Words.is_plain_text text.now }
{
    begins_well(text) && !has_any(b" \t\n*?[{", text)
}

/// Returns whether a word is the same plain word in every state.
fn is_plain_word(alloc: Global, word: &Word) -> Result<bool, NoMem>
    ensures { IfOk result (λ found. found ≡ Words.is_plain_word (word_view word.now)) }
{
    match literal_text(alloc, word)? {
        Some(text) => Ok(is_plain_text(text.as_bytes())),
        None => Ok(false),
    }
}

/// Returns whether all words are the same plain words in every state.
pub(crate) fn are_plain_words(alloc: Global, words: &[Word]) -> Result<bool, NoMem>
    ensures { IfOk result (λ found.
        found ≡ list_all Words.is_plain_word (map word_view words.now)) }
{
    for word in words {
        if !is_plain_word(alloc, word)? {
            return Ok(false);
        }
    }
    Ok(true)
}

/// Returns whether all words are read alike.
pub(crate) fn are_clear(scope: &Scope<'_, '_>, words: &[Word]) -> bool
    ensures { result ≡ list_all (Words.is_clear (scope_view scope.now)) (map word_view words.now) }
{
    let mut rest = words;
    while let [first, more @ ..] = rest {
        if !is_clear(scope, first) {
            return false;
        }
        rest = more;
    }
    true
}
