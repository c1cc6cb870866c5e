//! Parts of rows.
ghost use Rattle.std.specs.Prelude.{◌≡◌, option_map};
ghost use Rattle.casebook_shell.specs.Parts.{after, after_any, after_blanks, is_blank};

/// Returns whether a byte is a space or a tab.
pub(crate) fn is_blank(byte: u8) -> bool
    ensures { result ≡ is_blank byte }
{
    byte == b' ' || byte == b'\t'
}

/// Returns what follows a front that a text begins with.
#[tactic(auto, unfolding(crate::specs::Parts::after))]
pub(crate) fn after<'t>(front: &[u8], text: &'t [u8]) -> Option<&'t [u8]>
    ensures { option_map (λ rest. rest.now) result ≡ after front.now text.now }
{
    text.strip_prefix(front)
}

/// Returns what follows a front, or the text if it doesn't begin with it.
pub(crate) fn after_any<'t>(front: &[u8], text: &'t [u8]) -> &'t [u8]
    ensures { result.now ≡ after_any front.now text.now }
{
    match after(front, text) {
        Some(rest) => rest,
        None => text,
    }
}

/// Returns what follows the blanks at the front of a text.
#[tactic(auto, unfolding(crate::specs::Parts::after_blanks))]
pub(crate) fn after_blanks<'t>(text: &'t [u8]) -> &'t [u8]
    ensures { result.now ≡ after_blanks text.now }
{
    let mut rest = text;
    while let [first, more @ ..] = rest {
        if !is_blank(*first) {
            return rest;
        }
        rest = more;
    }
    rest
}
