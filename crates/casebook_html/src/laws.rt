//! The law of escaped texts. A law is a function without a body whose contract is the law.
ghost use Rattle.std.specs.Prelude.{ℕ, List, IsTrue};
ghost use Rattle.casebook_text.specs.Html.{escaped};
ghost use Rattle.casebook_html.specs.Harmless.{IsHarmlessHtml};
ghost use Rattle.casebook_html.specs.Safe.{is_safe_text};

/// States that a text that is safe to show is harmless in a page: escaped, it has no `<`, no `>`
/// and no quote, no `&` but of its own escapes, and no control code but newlines and tabs, and it
/// reads as the text.
pub fn escaped_texts_are_harmless()
    ensures { (text : List ℕ) → IsTrue (is_safe_text text) → IsHarmlessHtml text (escaped text) }
{}
