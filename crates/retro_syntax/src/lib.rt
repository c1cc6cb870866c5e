//! The grammar of the shell: which texts are lines, and the tree of each.
//!
//! [`parse`] returns the tree of the line that a text spells, or says why the text is refused. A
//! [`Parsed`] is a text with that result. No text spells two lines.
//!
//! The lexer splits a text into tokens (XCU 2.2, 2.3). `specs/Quoting.antt` defines the tokens
//! character by character. [`writing_is_read`] and the laws of the lexer, such as
//! [`single_quotes_read_as_double_quotes`], confirm that definition independently. The parser
//! reads the tree of the tokens (XCU 2.4, 2.10). [`reading_is_spelling`] says that it finds
//! exactly the tree that the tokens spell.
//!
//! A word is a list of pieces. [`tree::Word::tilde_prefix`] finds its tilde prefix.
//!
//! If allocation fails, calls return `NoMem`, alone or as a variant of their error, and leave
//! borrowed arguments unchanged.
//!
//! Start reading at `tree.rt`, then `lines.rt`, then `lexer.rt` and `parser.rt`.
//!
//! # What is proved
//!
//! - `parse` returns the one line that the text spells; `TooLong` exactly over 4,096 bytes; else
//!   `Unsupported` exactly if no line is spelled; else `TooDeep` exactly if the line nests over 32
//!   deep [`meets`]. It is a function of the text [`function`].
//! - A text spells at most one line (`one_line`). The parser finds exactly the tree that tokens
//!   spell (`reading_is_spelling`, `parsed_is_spelling`).
//! - All tokens of a text have a canonical writing, and are read back from it (`writing_is_read`).
//! - From any state of the lexer in which they apply: single quotes and a backslash read as double
//!   quotes (`single_quotes_read_as_double_quotes`, `backslash_reads_as_double_quotes`), `$n` as
//!   `${n}` (`name_reads_as_name_in_braces`), and a blank around an operator, a comment and a
//!   removed newline as nothing (`blank_reads_as_nothing`, `comment_reads_as_nothing`,
//!   `removed_newline_reads_as_nothing`).
//! - A `Parsed` keeps a text with `parse`'s result. `tilde_prefix` of words and assignments returns
//!   the prefix exactly if there is one.
#![tactic(auto)]

mod build;
mod depth;
mod laws;
mod lexer;
mod lines;
mod parsed;
mod parser;
mod syntax_error;
mod tildes;
pub mod tree;
mod words;

ghost use Rattle.std.specs.Prelude.{◌≡◌, Some, List};
ghost use Rattle.retro_syntax.specs.Tree.{Commands, Token};
ghost use Rattle.retro_syntax.specs.Parsing.{commands_of};
ghost use Rattle.retro_syntax.specs.Spells.{Spells};

pub use laws::{
    backslash_reads_as_double_quotes, blank_reads_as_nothing, comment_reads_as_nothing,
    name_reads_as_name_in_braces, removed_newline_reads_as_nothing,
    single_quotes_read_as_double_quotes,
};
pub use lines::{
    LONGEST_LINE, Line, Refused, one_line, parse, parsed_is_spelling, writing_is_read,
};
pub use parsed::Parsed;
pub use tildes::TildePrefix;

/// States that the parser finds exactly the tree that tokens spell, and that no tokens spell two
/// trees.
pub fn reading_is_spelling()
    ensures read { (ts : List Token) (c : Commands) → commands_of ts ≡ Some c → Spells ts c }
    ensures spelled { (ts : List Token) (c : Commands) → Spells ts c → commands_of ts ≡ Some c }
    ensures one { (ts : List Token) (c d : Commands) → Spells ts c → Spells ts d → c ≡ d }
{}
