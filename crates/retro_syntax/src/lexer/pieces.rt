//! The pieces of a word that is being read. If allocation fails, the pieces may have lost their
//! end.

ghost use Rattle.std.specs.Prelude.{◌≡◌, ◌∷◌, ◌++◌, OnOk};
ghost use Rattle.std.specs.Char.{encode_utf8};
ghost use Rattle.retro_syntax.specs.Quoting;
ghost use Rattle.retro_syntax.specs.View.{piece_view};
ghost use Rattle.retro_syntax.specs.inner.QuotingViews.{pieces_view};

use crate::tree::Piece;
use retro_path::NoMem;
use std::alloc::Global;

/// Appends `last` and then an unquoted character, to the same piece if `last` is unquoted text.
fn extend_plain(alloc: Global, pieces: &mut Vec<Piece>, last: Piece, c: char) -> Result<(), NoMem>
    ensures { OnOk result (pieces_view pieces.new
        ≡ pieces_view pieces.old ++ Quoting.grown_plain (piece_view last) c) }
{
    match last {
        Piece::Plain(mut text) => {
            text.push(c)?;
            pieces.push(Piece::Plain(text))?;
        }
        Piece::Quoted(_) | Piece::Parameter(_) | Piece::QuotedParameter(_) => {
            let mut text = String::new(alloc);
            text.push(c)?;
            pieces.push(last)?;
            pieces.push(Piece::Plain(text))?;
        }
    }
    Ok(())
}

/// Appends an unquoted character.
pub fn push_plain(alloc: Global, pieces: &mut Vec<Piece>, c: char) -> Result<(), NoMem>
    ensures { OnOk result
        (pieces_view pieces.new ≡ Quoting.add_plain (pieces_view pieces.old) c) }
{
    match pieces.pop() {
        Some(last) => extend_plain(alloc, pieces, last, c),
        None => {
            let mut text = String::new(alloc);
            text.push(c)?;
            pieces.push(Piece::Plain(text))?;
            Ok(())
        }
    }
}

/// Appends `last` and then a quoted text, to the same piece if `last` is quoted text.
fn extend_quoted(
    alloc: Global,
    pieces: &mut Vec<Piece>,
    last: Piece,
    more: &str,
) -> Result<(), NoMem>
    ensures { OnOk result (pieces_view pieces.new
        ≡ pieces_view pieces.old ++ Quoting.grown_quoted (piece_view last) more.now) }
{
    match last {
        Piece::Quoted(mut text) => {
            text.push_str(more)?;
            pieces.push(Piece::Quoted(text))?;
        }
        Piece::Plain(_) | Piece::Parameter(_) | Piece::QuotedParameter(_) => {
            let mut text = String::new(alloc);
            text.push_str(more)?;
            pieces.push(last)?;
            pieces.push(Piece::Quoted(text))?;
        }
    }
    Ok(())
}

/// Appends a quoted text. If the text is empty, and the last piece isn't quoted text, an empty
/// quoted piece is appended.
pub fn push_quoted_text(alloc: Global, pieces: &mut Vec<Piece>, more: &str) -> Result<(), NoMem>
    ensures { OnOk result
        (pieces_view pieces.new ≡ Quoting.add_quoted (pieces_view pieces.old) more.now) }
{
    match pieces.pop() {
        Some(last) => extend_quoted(alloc, pieces, last, more),
        None => {
            let mut text = String::new(alloc);
            text.push_str(more)?;
            pieces.push(Piece::Quoted(text))?;
            Ok(())
        }
    }
}

/// Appends `last` and then a quoted character, to the same piece if `last` is quoted text.
fn extend_quoted_character(
    alloc: Global,
    pieces: &mut Vec<Piece>,
    last: Piece,
    c: char,
) -> Result<(), NoMem>
    ensures { OnOk result (pieces_view pieces.new
        ≡ pieces_view pieces.old ++ Quoting.grown_quoted (piece_view last) (encode_utf8 c)) }
{
    match last {
        Piece::Quoted(mut text) => {
            text.push(c)?;
            pieces.push(Piece::Quoted(text))?;
        }
        Piece::Plain(_) | Piece::Parameter(_) | Piece::QuotedParameter(_) => {
            let mut text = String::new(alloc);
            text.push(c)?;
            pieces.push(last)?;
            pieces.push(Piece::Quoted(text))?;
        }
    }
    Ok(())
}

/// Appends a quoted character.
pub fn push_quoted(alloc: Global, pieces: &mut Vec<Piece>, c: char) -> Result<(), NoMem>
    ensures { OnOk result
        (pieces_view pieces.new ≡ Quoting.add_quoted (pieces_view pieces.old) (encode_utf8 c)) }
{
    match pieces.pop() {
        Some(last) => extend_quoted_character(alloc, pieces, last, c),
        None => {
            let mut text = String::new(alloc);
            text.push(c)?;
            pieces.push(Piece::Quoted(text))?;
            Ok(())
        }
    }
}

/// Appends a `$` that begins no parameter. `quoted` says whether it is in double quotes.
pub fn push_dollar(alloc: Global, pieces: &mut Vec<Piece>, quoted: bool) -> Result<(), NoMem>
    ensures { OnOk result
        (pieces_view pieces.new ≡ Quoting.add_dollar (pieces_view pieces.old) quoted) }
{
    if quoted {
        push_quoted(alloc, pieces, '$')
    } else {
        push_plain(alloc, pieces, '$')
    }
}
