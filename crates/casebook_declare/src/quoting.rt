//! Quotings of values.
ghost use Rattle.std.specs.Prelude.{◌≡◌, IfSome, length};
ghost use Rattle.casebook_declare.specs.Quoted.{quote_of};
ghost use Rattle.casebook_declare.specs.Units.{unit_of};
ghost use Rattle.casebook_declare.specs.inner.Views.{IsWithin};

use crate::unit::Unit;

/// How bash quotes a value.
#[derive(Clone, Copy, Debug, Drop)]
pub(crate) enum Quoting {
    /// In double quotes, if all bytes can be printed as they are.
    Double,
    /// Between `$'` and `'`.
    Ansi,
}

impl Quoting {
    /// Returns the closing quote.
    pub(crate) fn quote(self) -> u8
        ensures { result ≡ quote_of self }
    {
        match self {
            Quoting::Double => b'"',
            Quoting::Ansi => b'\'',
        }
    }

    /// Returns the byte that a text begins with.
    #[tactic(auto, unfolding(crate::specs::Units::unit_of))]
    pub(crate) fn unit_of(self, text: &[u8]) -> Option<Unit>
        ensures value { result ≡ unit_of self text.now }
        ensures width { IfSome result (λ unit. IsWithin unit.width (length text.now)) }
    {
        match self {
            Quoting::Double => Unit::in_double_quotes(text),
            Quoting::Ansi => Unit::in_ansi_quotes(text),
        }
    }
}
