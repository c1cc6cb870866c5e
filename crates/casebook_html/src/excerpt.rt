//! Texts of several lines that are safe to show.
ghost use Rattle.std.specs.Prelude.{◌≡◌, IfOk, IsTrue, encode_utf8_all};
ghost use Rattle.casebook_text.specs.SafeText.{safe_text};
ghost use Rattle.casebook_text.specs.declared.safe_text.Breaks.TheVariants.{Keep};
ghost use Rattle.casebook_html.specs.Safe.{is_safe_text};

use crate::NoMem;
use casebook_text::{Breaks, safe};
use std::alloc::Global;
use std::marker::Model;

/// A part of a text of several lines, as it is shown.
#[derive(Drop)]
pub struct Excerpt {
    text: String,
}

impl Model for Excerpt {
    ghost use Rattle.std.specs.Prelude.{IsTrue, List, ℕ, string_bytes};
    ghost use Rattle.casebook_html.specs.Safe.{is_safe_text};

    ghost Value = { List ℕ };

    ghost view = { λ a. string_bytes a.text };

    ghost invariant = { λ a. IsTrue (is_safe_text (string_bytes a.text)) };
}

impl Excerpt {
    /// Returns bytes of several lines, as `safe` shows them.
    pub(crate) fn of(alloc: Global, bytes: &[u8]) -> Result<Excerpt, NoMem>
        ensures value { IfOk result (λ text.
            text ≡ encode_utf8_all (safe_text Keep bytes.now)) }
        ensures safe { IfOk result (λ text. IsTrue (is_safe_text text)) }
    {
        Ok(Excerpt {
            text: safe(alloc, bytes, Breaks::Keep)?,
        })
    }

    /// Returns the text.
    pub(crate) fn as_str(&self) -> &str
        ensures value { result.now ≡ self.now }
        ensures safe { IsTrue (is_safe_text self.now) }
    {
        self.text.as_str()
    }
}
