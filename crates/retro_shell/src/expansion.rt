//! The expansion of words (XCU 2.6).
ghost use Rattle.std.specs.Prelude.{◌≡◌, ◌++◌, [], drop, false, true};
ghost use Rattle.std.specs.Prelude.{IfOk, OnOk, map, option_map, string_bytes};
ghost use Rattle.retro_local.specs.Runs.{Computes, Extends};
ghost use Rattle.retro_syntax.specs.Tildes.{tilde_prefix_view};
ghost use Rattle.retro_syntax.specs.View.{assignment_view, item_view, parameter_view, piece_view};
ghost use Rattle.retro_syntax.specs.View.{word_view};
ghost use Rattle.retro_shell.specs.Expansion as Expansion;
ghost use Rattle.retro_shell.specs.Expansion.{arguments, text_with, with_prefix};

use crate::context::Context;
use crate::fields::Fields;
use retro_syntax::TildePrefix;
use retro_syntax::tree::{Assignment, Item, Parameter, Piece, Word};
use retro_tree::{NoMem, Text, VarName, View};
use retro_utils::Local;
use std::alloc::Global;

/// Returns the home directory that a tilde prefix names. For an empty login name this is the value
/// of HOME.
#[tactic(auto, unfolding(crate::specs::Expansion::home))]
fn home<V: View>(
    alloc: Global,
    sid: u32,
    login: &str,
    local: &mut Local<V>,
) -> Result<Option<Text>, NoMem>
    ensures means { IfOk result (λ home. Computes local.old local.new
        (λ s. (s, Expansion.home sid login.now s)) home) }
    ensures extends { Extends sid local.old local.new }
{
    if login.is_empty() {
        let name = VarName::home(alloc)?;
        return Ok(local.var(alloc, sid, &name)?);
    }
    let name = Text::of(String::from_str(alloc, login)?);
    match local.user(alloc, &name)? {
        Some(user) => Ok(Some(user.home)),
        None => Ok(None),
    }
}

/// Returns the value of a parameter.
#[tactic(auto, unfolding(crate::specs::Expansion::parameter_value))]
fn parameter_value<V: View>(
    alloc: Global,
    context: Context,
    parameter: &Parameter,
    local: &mut Local<V>,
) -> Result<Text, NoMem>
    ensures means { IfOk result (λ value. Computes local.old local.new
        (λ s. (s, Expansion.parameter_value context s (parameter_view parameter.now))) value) }
    ensures extends { Extends context.place.sid local.old local.new }
{
    match parameter {
        Parameter::Status => {
            let status = match context.last {
                Some(status) => status,
                None => local.status(alloc, context.place.sid)?,
            };
            Ok(Text::of(status.to_string(alloc)?))
        }
        Parameter::Variable(name) => match local.var(alloc, context.place.sid, name)? {
            Some(value) => Ok(value),
            None => Ok(Text::of(String::new(alloc))),
        },
    }
}

/// Appends a piece to fields.
fn add_piece<V: View>(
    alloc: Global,
    context: Context,
    piece: &Piece,
    fields: &mut Fields,
    local: &mut Local<V>,
) -> Result<(), NoMem>
    ensures means { OnOk result (Computes local.old local.new
        (λ s. (s, Expansion.add_piece context s (piece_view piece.now) fields.old)) fields.new) }
    ensures extends { Extends context.place.sid local.old local.new }
{
    match piece {
        Piece::Plain(text) => Ok(fields.add(alloc, text)?),
        Piece::Quoted(text) => {
            fields.begin(alloc);
            Ok(fields.add(alloc, text)?)
        }
        Piece::Parameter(parameter) => {
            let value = parameter_value(alloc, context, parameter, local)?;
            Ok(fields.add_split(alloc, value.as_str())?)
        }
        Piece::QuotedParameter(parameter) => {
            let value = parameter_value(alloc, context, parameter, local)?;
            fields.begin(alloc);
            Ok(fields.add(alloc, value.as_str())?)
        }
    }
}

/// Appends pieces to fields.
fn add_pieces<V: View>(
    alloc: Global,
    context: Context,
    pieces: &[Piece],
    fields: &mut Fields,
    local: &mut Local<V>,
) -> Result<(), NoMem>
    ensures means { OnOk result (Computes local.old local.new (λ s.
        (s, Expansion.add_pieces context s (map piece_view pieces.now) fields.old)) fields.new) }
    ensures extends { Extends context.place.sid local.old local.new }
{
    for piece in pieces {
        add_piece(alloc, context, piece, fields, local)?;
    }
    Ok(())
}

/// Returns the pieces after the first.
fn after_first(pieces: &[Piece]) -> &[Piece]
    ensures { result.now ≡ drop 1 pieces.now }
{
    match pieces {
        [] => pieces,
        [_, rest @ ..] => rest,
    }
}

/// Appends the fields of a word.
#[tactic(auto, unfolding(crate::specs::Expansion::add_word))]
fn add_word<V: View>(
    alloc: Global,
    context: Context,
    word: &Word,
    fields: &mut Fields,
    local: &mut Local<V>,
) -> Result<(), NoMem>
    ensures means { OnOk result (Computes local.old local.new
        (λ s. (s, Expansion.add_word context s (word_view word.now) fields.old)) fields.new) }
    ensures extends { Extends context.place.sid local.old local.new }
{
    let mut pieces = word.pieces.as_slice();
    if let Some(prefix) = word.tilde_prefix() {
        if let Some(home) = home(alloc, context.place.sid, prefix.login, local)? {
            fields.begin(alloc);
            fields.add(alloc, home.as_str())?;
            fields.add(alloc, prefix.rest)?;
            pieces = after_first(pieces);
        }
    }
    add_pieces(alloc, context, pieces, fields, local)?;
    Ok(fields.close()?)
}

/// Returns the fields of words.
#[tactic(auto, unfolding(crate::specs::Expansion::fields))]
pub(crate) fn expand_words<V: View>(
    alloc: Global,
    context: Context,
    words: &[Word],
    local: &mut Local<V>,
) -> Result<Vec<String>, NoMem>
    ensures means { IfOk result (λ fields. Computes local.old local.new (λ s.
        (s, Expansion.fields context s (map word_view words.now)))
        (map string_bytes fields.items)) }
    ensures extends { Extends context.place.sid local.old local.new }
{
    let mut fields = Fields::new(alloc);
    for word in words {
        add_word(alloc, context, word, &mut fields, local)?;
    }
    Ok(fields.into_ended())
}

/// Returns the fields of a command: those of its words without its redirections.
#[tactic(auto, unfolding(crate::specs::Expansion::fields))]
pub(crate) fn expand_items<V: View>(
    alloc: Global,
    context: Context,
    items: &[Item],
    local: &mut Local<V>,
) -> Result<Vec<String>, NoMem>
    ensures means { IfOk result (λ fields. Computes local.old local.new (λ s.
        (s, Expansion.fields context s (arguments (map item_view items.now))))
        (map string_bytes fields.items)) }
    ensures extends { Extends context.place.sid local.old local.new }
{
    let mut fields = Fields::new(alloc);
    for item in items {
        if let Item::Argument(word) = item {
            add_word(alloc, context, word, &mut fields, local)?;
        }
    }
    Ok(fields.into_ended())
}

/// Appends the text of a piece.
fn push_piece<V: View>(
    alloc: Global,
    context: Context,
    piece: &Piece,
    text: &mut String,
    local: &mut Local<V>,
) -> Result<(), NoMem>
    ensures means { OnOk result (Computes local.old local.new (λ s.
        (s, string_bytes text.old ++ Expansion.piece_text context s (piece_view piece.now)))
        (string_bytes text.new)) }
    ensures extends { Extends context.place.sid local.old local.new }
{
    match piece {
        Piece::Plain(part) | Piece::Quoted(part) => Ok(text.push_str(part)?),
        Piece::Parameter(parameter) | Piece::QuotedParameter(parameter) => {
            let value = parameter_value(alloc, context, parameter, local)?;
            Ok(text.push_str(value.as_str())?)
        }
    }
}

/// Appends the texts of pieces.
fn push_pieces<V: View>(
    alloc: Global,
    context: Context,
    pieces: &[Piece],
    text: &mut String,
    local: &mut Local<V>,
) -> Result<(), NoMem>
    ensures means { OnOk result (Computes local.old local.new (λ s.
        (s, text_with context s (string_bytes text.old) (map piece_view pieces.now)))
        (string_bytes text.new)) }
    ensures extends { Extends context.place.sid local.old local.new }
{
    for piece in pieces {
        push_piece(alloc, context, piece, text, local)?;
    }
    Ok(())
}

/// Returns the one text of pieces, which may have a tilde prefix.
fn single<V: View>(
    alloc: Global,
    context: Context,
    prefix: Option<TildePrefix<'_>>,
    pieces: &[Piece],
    local: &mut Local<V>,
) -> Result<Text, NoMem>
    ensures means { IfOk result (λ text. Computes local.old local.new (λ s. (
      s,
      text_with context s [] (with_prefix context.place.sid
          (option_map tilde_prefix_view prefix.entry) (map piece_view pieces.now) s),
    )) text) }
    ensures extends { Extends context.place.sid local.old local.new }
{
    let mut text = String::new(alloc);
    let mut pieces = pieces;
    if let Some(prefix) = prefix {
        if let Some(home) = home(alloc, context.place.sid, prefix.login, local)? {
            text.push_str(home.as_str())?;
            text.push_str(prefix.rest)?;
            pieces = after_first(pieces);
        }
    }
    push_pieces(alloc, context, pieces, &mut text, local)?;
    Ok(Text::of(text))
}

/// Returns the one text of a redirection's word.
#[tactic(auto, unfolding(crate::specs::Expansion::single))]
pub(crate) fn expand_word<V: View>(
    alloc: Global,
    context: Context,
    word: &Word,
    local: &mut Local<V>,
) -> Result<Text, NoMem>
    ensures means { IfOk result (λ text. Computes local.old local.new
        (λ s. (s, Expansion.single context s false (word_view word.now))) text) }
    ensures extends { Extends context.place.sid local.old local.new }
{
    Ok(single(alloc, context, word.tilde_prefix(), &word.pieces, local)?)
}

/// Returns the one text of an assignment's value.
#[tactic(auto, unfolding(crate::specs::Expansion::single))]
pub(crate) fn expand_value<V: View>(
    alloc: Global,
    context: Context,
    assignment: &Assignment,
    local: &mut Local<V>,
) -> Result<Text, NoMem>
    ensures means { IfOk result (λ text. Computes local.old local.new (λ s.
        (s, Expansion.single context s true (assignment_view assignment.now).value)) text) }
    ensures extends { Extends context.place.sid local.old local.new }
{
    Ok(single(
        alloc,
        context,
        assignment.tilde_prefix(),
        &assignment.value.pieces,
        local,
    )?)
}
