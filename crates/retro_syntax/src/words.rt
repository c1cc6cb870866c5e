//! What a word is where a command may begin (XCU 2.4, 2.10.2).

ghost use Rattle.std.specs.Prelude.{
  ◌≡◌,
  ◌∷◌,
  [],
  MatchOption,
  Option,
  map,
  option_map,
  string_bytes,
  IfOk,
};
ghost use Rattle.retro_syntax.specs.inner.Failing.{Gives};
ghost use Rattle.retro_syntax.specs.Words;
ghost use Rattle.retro_syntax.specs.Tree;
ghost use Rattle.retro_syntax.specs.View.{assignment_view, piece_view, word_view};

use crate::syntax_error::SyntaxError;
use crate::tree::{Assignment, Piece, ReservedWord, Word};
use retro_path::VarName;
use std::alloc::Global;

/// The meaning of a word where a command may begin.
#[derive(Clone, Copy, Debug, PartialEq, Eq)]
pub enum Class {
    /// A reserved word that the grammar has a rule for.
    Reserved(ReservedWord),
    /// A reserved word without a rule in the grammar, or an assignment that a line may not have.
    Forbidden,
    /// An assignment.
    Assignment,
    /// Any other word.
    Ordinary,
}

/// Returns the text of a reserved word.
fn spelling(reserved: ReservedWord) -> &'static [u8]
    ensures { result.now ≡ Tree.spelling reserved }
{
    match reserved {
        ReservedWord::Bang => b"!",
        ReservedWord::If => b"if",
        ReservedWord::Then => b"then",
        ReservedWord::Elif => b"elif",
        ReservedWord::Else => b"else",
        ReservedWord::Fi => b"fi",
        ReservedWord::For => b"for",
        ReservedWord::In => b"in",
        ReservedWord::Do => b"do",
        ReservedWord::Done => b"done",
    }
}

/// Returns the reserved word that a text spells, or `None` if it spells none that the grammar has
/// a rule for.
fn reserved_word_of(text: &[u8]) -> Option<ReservedWord>
    ensures { result ≡ Words.lookup Words.reserved_words text.now }
{
    if spelling(ReservedWord::Bang) == text {
        Some(ReservedWord::Bang)
    } else if spelling(ReservedWord::If) == text {
        Some(ReservedWord::If)
    } else if spelling(ReservedWord::Then) == text {
        Some(ReservedWord::Then)
    } else if spelling(ReservedWord::Elif) == text {
        Some(ReservedWord::Elif)
    } else if spelling(ReservedWord::Else) == text {
        Some(ReservedWord::Else)
    } else if spelling(ReservedWord::Fi) == text {
        Some(ReservedWord::Fi)
    } else if spelling(ReservedWord::For) == text {
        Some(ReservedWord::For)
    } else if spelling(ReservedWord::In) == text {
        Some(ReservedWord::In)
    } else if spelling(ReservedWord::Do) == text {
        Some(ReservedWord::Do)
    } else if spelling(ReservedWord::Done) == text {
        Some(ReservedWord::Done)
    } else {
        None
    }
}

/// Returns whether a text spells a reserved word that the grammar has no rule for.
fn is_other_reserved(text: &[u8]) -> bool
    ensures { result ≡ Words.is_one_of Words.other_reserved text.now }
{
    b"{".as_slice() == text
        || b"}".as_slice() == text
        || b"case".as_slice() == text
        || b"esac".as_slice() == text
        || b"until".as_slice() == text
        || b"while".as_slice() == text
}

/// Splits a text that begins with `name=` into the name and the rest. Returns `None` for any other
/// text.
fn split_name<'a>(text: &'a str) -> Option<(&'a str, &'a str)>
    ensures { option_map (λ s. (s.0.now, s.1.now)) result ≡ Words.split_name text.now }
{
    let (name, value) = text.split_once('=')?;
    if VarName::is_shell_name(name) {
        Some((name, value))
    } else {
        None
    }
}

/// Returns whether a text contains `:~`.
fn has_colon_tilde(text: &[u8]) -> bool
    ensures { result ≡ Words.has_colon_tilde text.now }
{
    let mut rest = text;
    while let [first, more @ ..] = rest {
        if *first == b':' && begins_tilde(more) {
            return true;
        }
        rest = more;
    }
    false
}

/// Returns whether a text begins with `~`.
pub fn begins_tilde(text: &[u8]) -> bool
    ensures { result ≡ Words.begins_tilde text.now }
{
    match text {
        [] => false,
        [first, ..] => *first == b'~',
    }
}

/// Returns whether one of these pieces is unquoted text that contains `:~`.
fn has_unquoted_colon_tilde(pieces: &[Piece]) -> bool
    ensures { result ≡ Words.has_unquoted_colon_tilde (map piece_view pieces.now) }
{
    let mut rest = pieces;
    while let [piece, more @ ..] = rest {
        match piece {
            Piece::Plain(text) => {
                if has_colon_tilde(text.as_bytes()) {
                    return true;
                }
            }
            Piece::Quoted(_) | Piece::Parameter(_) | Piece::QuotedParameter(_) => {}
        }
        rest = more;
    }
    false
}

/// Returns the class of the word `name=value`, whose value continues with the pieces `more`.
fn assignment_class(name: &str, value: &str, more: &[Piece]) -> Class
    ensures { result
        ≡ Words.assignment_class (Words.assigned name.now value.now (map piece_view more.now)) }
{
    if !VarName::is_var_name(name)
        || has_colon_tilde(value.as_bytes())
        || has_unquoted_colon_tilde(more)
    {
        Class::Forbidden
    } else {
        Class::Assignment
    }
}

/// Returns the class of an unquoted word that doesn't begin with `name=`.
fn plain_class(text: &[u8]) -> Class
    ensures { result ≡ Words.plain_class text.now (Words.lookup Words.reserved_words text.now) }
{
    match reserved_word_of(text) {
        Some(reserved) => Class::Reserved(reserved),
        None if is_other_reserved(text) => Class::Forbidden,
        None => Class::Ordinary,
    }
}

/// Returns the class of a word where a command may begin.
#[tactic(auto, unfolding(crate::specs::Words::class))]
pub fn class_of(word: &Word) -> Class
    ensures { result ≡ Words.class (word_view word.now) }
{
    match word.pieces.as_slice() {
        [] => Class::Ordinary,
        [first, more @ ..] => match first {
            Piece::Plain(text) => match split_name(text) {
                Some((name, value)) => assignment_class(name, value, more),
                None => match more {
                    [] => plain_class(text.as_bytes()),
                    [_second, _rest @ ..] => Class::Ordinary,
                },
            },
            Piece::Quoted(_) | Piece::Parameter(_) | Piece::QuotedParameter(_) => Class::Ordinary,
        },
    }
}

/// Splits a word into its first piece and the others. Returns `None` for a word without pieces.
fn first_piece(word: Word) -> Option<(Piece, Vec<Piece>)>
    ensures { MatchOption result (word.pieces.items ≡ [])
        (λ x. word.pieces.items ≡ x.0 ∷ x.1.items) }
{
    let Word { mut pieces } = word;
    if pieces.is_empty() {
        return None;
    }
    let first = pieces.remove(0);
    Some((first, pieces))
}

/// Returns the assignment that a word is. Fails with `Unsupported` if the word doesn't begin with
/// `name=`, or if a line may not assign the variable.
pub fn assignment_of(alloc: Global, word: Word) -> Result<Assignment, SyntaxError>
    ensures { Gives assignment_view result (Words.assignment_of (word_view word)) }
{
    match first_piece(word) {
        None => Err(SyntaxError::Unsupported),
        Some((first, mut pieces)) => match first {
            Piece::Plain(text) => match split_name(&text) {
                None => Err(SyntaxError::Unsupported),
                Some((name, value)) => match VarName::of(alloc, name)? {
                    None => Err(SyntaxError::Unsupported),
                    Some(name) => {
                        pieces.insert(0, Piece::Plain(String::from_str(alloc, value)?))?;
                        Ok(Assignment {
                            name,
                            value: Word { pieces },
                        })
                    }
                },
            },
            Piece::Quoted(_) | Piece::Parameter(_) | Piece::QuotedParameter(_) => {
                Err(SyntaxError::Unsupported)
            }
        },
    }
}

/// Returns whether the class is that of assignments.
pub fn is_assignment(class: Class) -> bool
    ensures { result ≡ Words.is_assignment class }
{
    match class {
        Class::Assignment => true,
        Class::Reserved(_) | Class::Forbidden | Class::Ordinary => false,
    }
}

/// Returns whether the class is that of ordinary words.
pub fn is_ordinary(class: Class) -> bool
    ensures { result ≡ Words.is_ordinary class }
{
    match class {
        Class::Ordinary => true,
        Class::Reserved(_) | Class::Forbidden | Class::Assignment => false,
    }
}

/// Returns the variable that a word after `for` names. Fails with `Unsupported` if the word isn't
/// the name of a variable that a line may assign.
#[tactic(auto, unfolding(crate::specs::Words::name_of))]
pub fn name_of(alloc: Global, word: &Word) -> Result<VarName, SyntaxError>
    ensures { Gives (λ name. name) result (Words.name_of (word_view word.now)) }
{
    match word.pieces.as_slice() {
        [Piece::Plain(text)] => match VarName::of(alloc, text)? {
            None => Err(SyntaxError::Unsupported),
            Some(name) => Ok(name),
        },
        _ => Err(SyntaxError::Unsupported),
    }
}
