//! Laws of the lexer. Each says that two texts read alike, whatever comes before and after them.
//!
//! The definition of tokens reads a text character by character. These laws describe it in other
//! terms, from every state of the lexer in which the texts may occur.

ghost use Rattle.retro_syntax.specs.LexerLaws.{
  BackslashLaw,
  BlankAfterLaw,
  BlankBeforeLaw,
  BlankBetweenLaw,
  BracesLaw,
  CommentLaw,
  RemovedNewlineLaw,
  SingleQuotesLaw,
};

/// States that a text in single quotes reads as the text in double quotes with a backslash before
/// each `$`, backquote, `"` and `\` (XCU 2.2.2, 2.2.3).
pub fn single_quotes_read_as_double_quotes()
    ensures { SingleQuotesLaw }
{}

/// States that, outside quotes, a character after a backslash reads as the character in double
/// quotes, unless it is a newline (XCU 2.2.1).
pub fn backslash_reads_as_double_quotes()
    ensures { BackslashLaw }
{}

/// States that a backslash and a newline read as nothing, except in single quotes and comments
/// (XCU 2.2.1).
pub fn removed_newline_reads_as_nothing()
    ensures { RemovedNewlineLaw }
{}

/// States that `$name` reads as `${name}`, unless a character of a name or a backslash follows
/// (XCU 2.6.2).
pub fn name_reads_as_name_in_braces()
    ensures { BracesLaw }
{}

/// States that a blank before or after an operator, or between tokens, reads as nothing (XCU 2.3).
pub fn blank_reads_as_nothing()
    ensures before { BlankBeforeLaw }
    ensures after { BlankAfterLaw }
    ensures between { BlankBetweenLaw }
{}

/// States that a comment reads as nothing (XCU 2.3).
pub fn comment_reads_as_nothing()
    ensures { CommentLaw }
{}
