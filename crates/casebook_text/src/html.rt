//! Text in HTML.
ghost use Rattle.std.specs.Prelude.{◌≡◌, ◌++◌, IfOk, OnOk, IsTrue, not, string_bytes, encode_utf8};
ghost use Rattle.std.specs.List.{list_all};
ghost use Rattle.casebook_text.specs.Html.{escaped, unescaped, is_markup};

use crate::NoMem;
use std::alloc::Global;

/// Appends a character, or its escape if it has a meaning in HTML.
fn push_escaped(text: &mut String, c: char) -> Result<(), NoMem>
    ensures { OnOk result (string_bytes text.new
        ≡ string_bytes text.old ++ escaped (encode_utf8 c)) }
{
    match c {
        '&' => text.push_str("&amp;"),
        '<' => text.push_str("&lt;"),
        '>' => text.push_str("&gt;"),
        '"' => text.push_str("&quot;"),
        '\'' => text.push_str("&#39;"),
        _ => text.push(c),
    }
}

/// Returns a text as it is written in HTML, in content and in a quoted attribute's value: `&`, `<`,
/// `>`, `"` and `'` become character references (HTML Standard, section 13.1.4), and all else stays
/// as it is.
pub fn escape(alloc: Global, text: &str) -> Result<String, NoMem>
    ensures value { IfOk result (λ html. string_bytes html ≡ escaped text.now) }

    // Nothing in it begins or ends a tag or an attribute's value.
    ensures no_markup { IfOk result (λ html.
        IsTrue (list_all (λ b. not (is_markup b)) (string_bytes html))) }

    // Its character references stand for the text.
    ensures unescapes { IfOk result (λ html. unescaped (string_bytes html) ≡ text.now) }
{
    let mut html = String::with_capacity(alloc, text.len())?;
    for c in text.chars() {
        push_escaped(&mut html, c)?;
    }
    Ok(html)
}
