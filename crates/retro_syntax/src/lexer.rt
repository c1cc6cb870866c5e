//! The lexer, which splits a text into tokens (XCU 2.2, 2.3, 2.6.2).
//!
//! `specs/Quoting.antt` defines the tokens of a text character by character. Each method of
//! [`Lexer`] that reads a character is one step of that definition. It fails with `Unsupported` if
//! the definition gives no tokens for a text with that character there.

mod characters;
mod pieces;

ghost use Rattle.std.specs.Prelude.{
  ◌≡◌,
  ◌∷◌,
  [],
  ◌++◌,
  ℕ,
  List,
  OnOk,
  Some,
  MatchOption,
  true,
  false,
  string_bytes,
};
ghost use Rattle.std.specs.Char.{encode_utf8};
ghost use Rattle.std.specs.Str.{chars};
ghost use Rattle.retro_path.specs.VarName.{is_var_name};
ghost use Rattle.retro_syntax.specs.Quoting;
ghost use Rattle.retro_syntax.specs.Tree;
ghost use Rattle.retro_syntax.specs.inner.Failing.{Gives};
ghost use Rattle.retro_syntax.specs.View.{parameter_view, piece_view, token_view, tokens_view};
ghost use Rattle.retro_syntax.specs.inner.QuotingViews.{
  Reads,
  lexer_view,
  operator_view,
  pending_view,
  pieces_view,
  quote_view,
};

use crate::lexer::characters::{
    is_blank, is_operator, is_other_parameter, is_refused, is_special_inside,
};
use crate::lexer::pieces::{push_dollar, push_plain, push_quoted, push_quoted_text};
use crate::syntax_error::SyntaxError;
use crate::tree::{Connector, Direction, Parameter, Piece, Token, Word};
use retro_path::{NoMem, VarName};
use std::alloc::Global;
use std::mem;

/// The first character of an operator (XCU 2.10.2).
#[derive(Clone, Copy, Debug, PartialEq, Eq)]
pub enum Operator {
    /// `;`
    Semicolon,
    /// `&`
    And,
    /// `|`
    Bar,
    /// `<`
    Less,
    /// `>`
    Greater,
}

/// The quotes around the next character (XCU 2.2).
#[derive(Clone, Copy, Debug, PartialEq, Eq)]
pub enum Quote {
    /// None.
    Unquoted,
    /// Single quotes (XCU 2.2.2).
    Single,
    /// Double quotes (XCU 2.2.3).
    Double,
}

/// What the next character may belong to. The field `quoted` says whether a parameter is in double
/// quotes.
#[derive(Clone, Copy, Debug, PartialEq, Eq)]
pub enum Pending {
    /// Nothing yet: a token may begin.
    Between,
    /// A comment.
    Comment,
    /// An operator whose first character was read.
    Operator(Operator),
    /// A word, outside parameters. `digits` says whether only unquoted digits were read.
    Word { digits: bool, quote: Quote },
    /// A parameter of which `$` was read.
    Dollar { quoted: bool },
    /// A parameter of which `$` and the start of a name were read.
    Name { quoted: bool },
    /// A parameter of which `${` was read, and perhaps the start of a name.
    Brace { quoted: bool },
    /// A parameter of which `${?` was read.
    Question { quoted: bool },
}

/// The state of reading a text, after some of its characters.
#[derive(Drop)]
pub struct Lexer {
    alloc: Global,
    /// The tokens before the pending one.
    tokens: Vec<Token>,
    /// What the next character may belong to.
    pending: Pending,
    /// The pieces of the pending word.
    pieces: Vec<Piece>,
    /// The name of the pending parameter.
    name: String,
    /// Whether the last character is a backslash that may quote the next one.
    backslash: bool,
}

/// Returns a parameter as a piece of a word.
fn parameter_piece(quoted: bool, parameter: Parameter) -> Piece
    ensures { piece_view result ≡ Quoting.parameter_piece quoted (parameter_view parameter) }
{
    if quoted {
        Piece::QuotedParameter(parameter)
    } else {
        Piece::Parameter(parameter)
    }
}

/// Returns the quotes around a parameter.
fn quote_of(quoted: bool) -> Quote
    ensures { quote_view result ≡ Quoting.quote_of quoted }
{
    if quoted {
        Quote::Double
    } else {
        Quote::Unquoted
    }
}

/// Takes the name that was read, and leaves an empty one. Returns `None` if a line may not use the
/// variable.
fn take_name(alloc: Global, name: &mut String) -> Option<VarName>
    ensures { MatchOption result
        (is_var_name (string_bytes name.old) ≡ false)
        (λ found. (found ≡ string_bytes name.old)
        × (is_var_name (string_bytes name.old) ≡ true)) }
{
    VarName::from_string(mem::replace(name, String::new(alloc)))
}

impl Pending {
    /// Returns whether a backslash may quote the next character.
    fn takes_backslash(self) -> bool
        ensures { (ps : List Tree.Piece) (n : List ℕ)
            → result ≡ Quoting.takes_backslash (pending_view self ps n) }
    {
        match self {
            Pending::Comment
            | Pending::Word {
                quote: Quote::Single,
                ..
            } => false,
            Pending::Between
            | Pending::Operator(_)
            | Pending::Word {
                quote: Quote::Unquoted,
                ..
            }
            | Pending::Word {
                quote: Quote::Double,
                ..
            }
            | Pending::Dollar { .. }
            | Pending::Name { .. }
            | Pending::Brace { .. }
            | Pending::Question { .. } => true,
        }
    }
}

impl Lexer {
    /// Returns a lexer that hasn't read a character.
    fn new(alloc: Global) -> Lexer
        ensures { lexer_view result ≡ Quoting.with_pending [] Quoting.between }
    {
        Lexer {
            alloc,
            tokens: Vec::new(alloc),
            pending: Pending::Between,
            pieces: Vec::new(alloc),
            name: String::new(alloc),
            backslash: false,
        }
    }

    /// Appends the pending word to the tokens.
    fn end_word(&mut self) -> Result<(), NoMem>
        ensures { OnOk result (tokens_view self.new.tokens
            ≡ tokens_view self.old.tokens ++ Tree.word (pieces_view self.old.pieces) ∷ []) }
    {
        let pieces = mem::replace(&mut self.pieces, Vec::new(self.alloc));
        self.tokens.push(Token::Word(Word { pieces }))?;
        Ok(())
    }

    /// Appends the pending operator to the tokens, without a second character. Fails with
    /// `Unsupported` for a single `&`.
    fn end_operator(&mut self, operator: Operator) -> Result<(), SyntaxError>
        ensures { Gives (λ _. tokens_view self.new.tokens) result
            (Quoting.end_operator (tokens_view self.old.tokens) (operator_view operator)) }
    {
        let token = match operator {
            Operator::Semicolon => Token::Semicolon,
            Operator::And => return Err(SyntaxError::Unsupported),
            Operator::Bar => Token::Bar,
            Operator::Less => Token::Redirection(Direction::From),
            Operator::Greater => Token::Redirection(Direction::Onto),
        };
        self.tokens.push(token)?;
        Ok(())
    }

    /// Reads a character of a word, outside quotes.
    fn read_unquoted(&mut self, digits: bool, c: char) -> Result<(), SyntaxError>
        ensures { Reads self.new result
            (Quoting.unquoted_at (tokens_view self.old.tokens) (pieces_view self.old.pieces)
            digits c) }
    {
        if c == '\'' {
            push_quoted_text(self.alloc, &mut self.pieces, "")?;
            self.pending = Pending::Word {
                digits: false,
                quote: Quote::Single,
            };
        } else if c == '"' {
            push_quoted_text(self.alloc, &mut self.pieces, "")?;
            self.pending = Pending::Word {
                digits: false,
                quote: Quote::Double,
            };
        } else if c == '$' {
            self.pending = Pending::Dollar { quoted: false };
        } else if is_refused(c) {
            return Err(SyntaxError::Unsupported);
        } else {
            push_plain(self.alloc, &mut self.pieces, c)?;
            self.pending = Pending::Word {
                digits: digits && c.is_ascii_digit(),
                quote: Quote::Unquoted,
            };
        }
        Ok(())
    }

    /// Reads a character where a token may begin.
    fn begin_token(&mut self, c: char) -> Result<(), SyntaxError>
        ensures { Reads self.new result (Quoting.begin_token (tokens_view self.old.tokens) c) }
    {
        self.pending = if is_blank(c) {
            Pending::Between
        } else if c == ';' {
            Pending::Operator(Operator::Semicolon)
        } else if c == '&' {
            Pending::Operator(Operator::And)
        } else if c == '|' {
            Pending::Operator(Operator::Bar)
        } else if c == '<' {
            Pending::Operator(Operator::Less)
        } else if c == '>' {
            Pending::Operator(Operator::Greater)
        } else if c == '#' {
            Pending::Comment
        } else {
            self.pieces.clear();
            return self.read_unquoted(true, c);
        };
        Ok(())
    }

    /// Appends a quoted character to the pending word.
    fn add_quoted(&mut self, quote: Quote, c: char) -> Result<(), SyntaxError>
        ensures { Reads self.new result
            (Quoting.word_goes_on (tokens_view self.old.tokens)
            (Quoting.in_word (Quoting.add_quoted (pieces_view self.old.pieces) (encode_utf8 c))
            false (quote_view quote))) }
    {
        push_quoted(self.alloc, &mut self.pieces, c)?;
        self.pending = Pending::Word {
            digits: false,
            quote,
        };
        Ok(())
    }

    /// Reads a character of a word, in double quotes.
    fn read_double(&mut self, c: char) -> Result<(), SyntaxError>
        ensures { Reads self.new result
            (Quoting.word_at (tokens_view self.old.tokens) (pieces_view self.old.pieces) false
            Quoting.double c) }
    {
        if c == '"' {
            self.pending = Pending::Word {
                digits: false,
                quote: Quote::Unquoted,
            };
        } else if c == '$' {
            self.pending = Pending::Dollar { quoted: true };
        } else if c == '\0' || c == '`' {
            return Err(SyntaxError::Unsupported);
        } else {
            return self.add_quoted(Quote::Double, c);
        }
        Ok(())
    }

    /// Reads a character of a word, in single quotes.
    fn read_single(&mut self, c: char) -> Result<(), SyntaxError>
        ensures { Reads self.new result
            (Quoting.word_at (tokens_view self.old.tokens) (pieces_view self.old.pieces) false
            Quoting.single c) }
    {
        if c == '\'' {
            self.pending = Pending::Word {
                digits: false,
                quote: Quote::Unquoted,
            };
        } else if c == '\0' {
            return Err(SyntaxError::Unsupported);
        } else {
            return self.add_quoted(Quote::Single, c);
        }
        Ok(())
    }

    /// Reads a character in a word, or the first one after it.
    fn read_word(&mut self, digits: bool, quote: Quote, c: char) -> Result<(), SyntaxError>
        ensures { Reads self.new result
            (Quoting.word_at (tokens_view self.old.tokens) (pieces_view self.old.pieces) digits
            (quote_view quote) c) }
    {
        match quote {
            Quote::Unquoted => {
                if !(is_blank(c) || is_operator(c)) {
                    return self.read_unquoted(digits, c);
                }
                if digits && (c == '<' || c == '>') {
                    return Err(SyntaxError::Unsupported);
                }
                self.end_word()?;
                self.begin_token(c)
            }
            Quote::Single => self.read_single(c),
            Quote::Double => self.read_double(c),
        }
    }

    /// Appends a parameter to the pending word.
    fn end_parameter(&mut self, quoted: bool, parameter: Parameter) -> Result<(), SyntaxError>
        ensures { Reads self.new result
            (Quoting.with_parameter (tokens_view self.old.tokens) (pieces_view self.old.pieces)
            quoted (parameter_view parameter)) }
    {
        self.pieces.push(parameter_piece(quoted, parameter))?;
        self.pending = Pending::Word {
            digits: false,
            quote: quote_of(quoted),
        };
        Ok(())
    }

    /// Begins the name of a parameter with its first character.
    fn begin_name(&mut self, c: char) -> Result<(), NoMem>
        ensures name { OnOk result (string_bytes self.new.name ≡ encode_utf8 c) }
        ensures tokens { self.new.tokens ≡ self.old.tokens }
        ensures pieces { self.new.pieces ≡ self.old.pieces }
    {
        self.name.clear();
        self.name.push(c)
    }

    /// Reads the character after `$`.
    fn read_dollar(&mut self, quoted: bool, c: char) -> Result<(), SyntaxError>
        ensures { Reads self.new result
            (Quoting.reading_at (tokens_view self.old.tokens)
            (Quoting.dollar (pieces_view self.old.pieces) quoted) c) }
    {
        if VarName::may_start_with(c) {
            self.begin_name(c)?;
            self.pending = Pending::Name { quoted };
            Ok(())
        } else if c == '{' {
            self.name.clear();
            self.pending = Pending::Brace { quoted };
            Ok(())
        } else if c == '?' {
            self.end_parameter(quoted, Parameter::Status)
        } else if is_other_parameter(c) {
            Err(SyntaxError::Unsupported)
        } else {
            push_dollar(self.alloc, &mut self.pieces, quoted)?;
            self.read_word(false, quote_of(quoted), c)
        }
    }

    /// Reads a character after `$` and the start of a name.
    fn read_name(&mut self, quoted: bool, c: char) -> Result<(), SyntaxError>
        ensures { Reads self.new result
            (Quoting.reading_at (tokens_view self.old.tokens)
            (Quoting.dollar_name (pieces_view self.old.pieces) quoted
            (string_bytes self.old.name)) c) }
    {
        if VarName::may_continue_with(c) {
            self.name.push(c)?;
            self.pending = Pending::Name { quoted };
            return Ok(());
        }
        let Some(name) = take_name(self.alloc, &mut self.name) else {
            return Err(SyntaxError::Unsupported);
        };
        self.pieces
            .push(parameter_piece(quoted, Parameter::Variable(name)))?;
        self.read_word(false, quote_of(quoted), c)
    }

    /// Reads the character after `${`.
    fn read_first_in_braces(&mut self, quoted: bool, c: char) -> Result<(), SyntaxError>
        ensures { Reads self.new result
            (Quoting.reading_at (tokens_view self.old.tokens)
            (Quoting.dollar_brace (pieces_view self.old.pieces) quoted []) c) }
    {
        if c == '?' {
            self.pending = Pending::Question { quoted };
        } else if VarName::may_start_with(c) {
            self.begin_name(c)?;
            self.pending = Pending::Brace { quoted };
        } else {
            return Err(SyntaxError::Unsupported);
        }
        Ok(())
    }

    /// Reads a character after `${` and perhaps the start of a name.
    fn read_brace(&mut self, quoted: bool, c: char) -> Result<(), SyntaxError>
        ensures { Reads self.new result
            (Quoting.reading_at (tokens_view self.old.tokens)
            (Quoting.dollar_brace (pieces_view self.old.pieces) quoted
            (string_bytes self.old.name)) c) }
    {
        match self.name.as_bytes() {
            [] => self.read_first_in_braces(quoted, c),
            [_first, _more @ ..] => {
                if c == '}' {
                    match take_name(self.alloc, &mut self.name) {
                        None => Err(SyntaxError::Unsupported),
                        Some(name) => self.end_parameter(quoted, Parameter::Variable(name)),
                    }
                } else if VarName::may_continue_with(c) {
                    self.name.push(c)?;
                    self.pending = Pending::Brace { quoted };
                    Ok(())
                } else {
                    Err(SyntaxError::Unsupported)
                }
            }
        }
    }

    /// Reads the character after an operator's first one.
    fn read_operator(&mut self, operator: Operator, c: char) -> Result<(), SyntaxError>
        ensures { Reads self.new result
            (Quoting.operator_at (tokens_view self.old.tokens) (operator_view operator) c) }
    {
        let long = match operator {
            Operator::And if c == '&' => Token::Connector(Connector::AndIf),
            Operator::Bar if c == '|' => Token::Connector(Connector::OrIf),
            Operator::Greater if c == '>' => Token::Redirection(Direction::Append),
            Operator::Semicolon if c == ';' => return Err(SyntaxError::Unsupported),
            Operator::Less if c == '<' || c == '&' || c == '>' => {
                return Err(SyntaxError::Unsupported);
            }
            Operator::Greater if c == '&' || c == '|' => return Err(SyntaxError::Unsupported),
            operator => {
                self.end_operator(operator)?;
                return self.begin_token(c);
            }
        };
        self.tokens.push(long)?;
        self.pending = Pending::Between;
        Ok(())
    }

    /// Reads a character that isn't quoted by a backslash.
    fn read_unescaped(&mut self, c: char) -> Result<(), SyntaxError>
        ensures { Reads self.new result
            (Quoting.plain_at (tokens_view self.old.tokens)
            (pending_view self.old.pending (pieces_view self.old.pieces)
            (string_bytes self.old.name)) c) }
    {
        match self.pending {
            Pending::Between => self.begin_token(c),
            Pending::Comment => {
                if c == '\0' || c == '\n' {
                    return Err(SyntaxError::Unsupported);
                }
                Ok(())
            }
            Pending::Operator(operator) => self.read_operator(operator, c),
            Pending::Word { digits, quote } => self.read_word(digits, quote, c),
            Pending::Dollar { quoted } => self.read_dollar(quoted, c),
            Pending::Name { quoted } => self.read_name(quoted, c),
            Pending::Brace { quoted } => self.read_brace(quoted, c),
            Pending::Question { quoted } => {
                if c == '}' {
                    self.end_parameter(quoted, Parameter::Status)
                } else {
                    Err(SyntaxError::Unsupported)
                }
            }
        }
    }

    /// Reads a character of a word that follows a backslash.
    fn read_escaped_in(&mut self, quote: Quote, c: char) -> Result<(), SyntaxError>
        ensures { Reads self.new result
            (Quoting.escaped_in (tokens_view self.old.tokens) (pieces_view self.old.pieces)
            (quote_view quote) c) }
    {
        match quote {
            Quote::Single => Err(SyntaxError::Unsupported),
            Quote::Unquoted => self.add_quoted(Quote::Unquoted, c),
            Quote::Double if is_special_inside(c) => self.add_quoted(Quote::Double, c),
            Quote::Double => {
                push_quoted(self.alloc, &mut self.pieces, '\\')?;
                self.add_quoted(Quote::Double, c)
            }
        }
    }

    /// Reads a character that is quoted by a backslash.
    fn read_escaped(&mut self, c: char) -> Result<(), SyntaxError>
        ensures { Reads self.new result
            (Quoting.escaped_at (tokens_view self.old.tokens)
            (pending_view self.old.pending (pieces_view self.old.pieces)
            (string_bytes self.old.name)) c) }
    {
        match self.pending {
            Pending::Between => {
                self.pieces.clear();
                self.read_escaped_in(Quote::Unquoted, c)
            }
            Pending::Operator(operator) => {
                self.end_operator(operator)?;
                self.pieces.clear();
                self.read_escaped_in(Quote::Unquoted, c)
            }
            Pending::Word { quote, .. } => self.read_escaped_in(quote, c),
            Pending::Dollar { quoted } => {
                push_dollar(self.alloc, &mut self.pieces, quoted)?;
                self.read_escaped_in(quote_of(quoted), c)
            }
            Pending::Name { quoted } => match take_name(self.alloc, &mut self.name) {
                None => Err(SyntaxError::Unsupported),
                Some(name) => {
                    self.pieces
                        .push(parameter_piece(quoted, Parameter::Variable(name)))?;
                    self.read_escaped_in(quote_of(quoted), c)
                }
            },
            Pending::Comment | Pending::Brace { .. } | Pending::Question { .. } => {
                Err(SyntaxError::Unsupported)
            }
        }
    }

    /// Reads the next character. A backslash and a newline after it are removed (XCU 2.2.1).
    #[tactic(auto, unfolding(crate::specs::Quoting::lex_step))]
    fn read(&mut self, c: char) -> Result<(), SyntaxError>
        ensures { Gives (λ _. lexer_view self.new) result
            (Quoting.lex_step (lexer_view self.old) c) }
    {
        if self.backslash {
            if c == '\0' {
                return Err(SyntaxError::Unsupported);
            }
            if c != '\n' {
                self.read_escaped(c)?;
            }
            self.backslash = false;
        } else if c == '\\' && self.pending.takes_backslash() {
            self.backslash = true;
        } else {
            self.read_unescaped(c)?;
            self.backslash = false;
        }
        Ok(())
    }

    /// Ends the text, and returns its tokens. Fails with `Unsupported` if the text ends after a
    /// backslash, in quotes, in braces, or with a single `&`.
    fn finish(mut self) -> Result<Vec<Token>, SyntaxError>
        ensures { Gives (λ tokens. tokens_view tokens) result
            (Quoting.lex_end (Some (lexer_view self))) }
    {
        if self.backslash {
            return Err(SyntaxError::Unsupported);
        }
        match self.pending {
            Pending::Between | Pending::Comment => {}
            Pending::Operator(operator) => self.end_operator(operator)?,
            Pending::Word {
                quote: Quote::Unquoted,
                ..
            } => self.end_word()?,
            Pending::Dollar { quoted: false } => {
                push_dollar(self.alloc, &mut self.pieces, false)?;
                self.end_word()?;
            }
            Pending::Name { quoted: false } => match take_name(self.alloc, &mut self.name) {
                None => return Err(SyntaxError::Unsupported),
                Some(name) => {
                    self.pieces
                        .push(Piece::Parameter(Parameter::Variable(name)))?;
                    self.end_word()?;
                }
            },
            Pending::Word { .. }
            | Pending::Dollar { .. }
            | Pending::Name { .. }
            | Pending::Brace { .. }
            | Pending::Question { .. } => return Err(SyntaxError::Unsupported),
        }
        Ok(self.tokens)
    }
}

/// Returns the tokens of a text. Fails with `Unsupported` if the definition gives none.
#[tactic(auto, unfolding(crate::specs::Quoting::tokens_of))]
pub fn tokens_of(alloc: Global, text: &str) -> Result<Vec<Token>, SyntaxError>
    ensures { Gives (λ tokens. tokens_view tokens) result (Quoting.tokens_of (chars text.now)) }
{
    let mut lexer = Lexer::new(alloc);
    for c in text.chars() {
        lexer.read(c)?;
    }
    lexer.finish()
}
