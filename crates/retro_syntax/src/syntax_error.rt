//! Errors of the lexer and the parser.

use retro_path::NoMem;
use std::alloc::AllocFailed;

/// Why a text has no tokens, or tokens have no tree.
#[derive(Clone, Copy, Debug, PartialEq, Eq)]
pub enum SyntaxError {
    /// The definition gives no tokens for the text, or no tree for the tokens.
    Unsupported,
    /// Allocation failed.
    NoMem,
}

impl From<NoMem> for SyntaxError {
    ghost use Rattle.std.specs.Prelude.{◌≡◌};
    ghost use Rattle.retro_syntax.specs.declared.syntax_error.SyntaxError.TheVariants as errors;

    ghost from_gives = { λ _ e. e ≡ errors.NoMem };

    fn from(_error: NoMem) -> SyntaxError {
        SyntaxError::NoMem
    }
}

impl<T: Drop> From<AllocFailed<T>> for SyntaxError {
    ghost use Rattle.std.specs.Prelude.{◌≡◌};
    ghost use Rattle.retro_syntax.specs.declared.syntax_error.SyntaxError.TheVariants as errors;

    ghost from_gives = { λ _ e. e ≡ errors.NoMem };

    fn from(_error: AllocFailed<T>) -> SyntaxError {
        SyntaxError::NoMem
    }
}
