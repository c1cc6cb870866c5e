//! Characters of a text that a shell reads in a way of its own.
ghost use Rattle.std.specs.Prelude.{◌≡◌};
ghost use Rattle.casebook_profile.specs.Characters as Characters;

/// Returns whether a set of characters has one.
pub(crate) fn among(set: &[u8], character: u8) -> bool
    ensures { result ≡ Characters.among set.now character }
{
    set.contains(&character)
}

/// Returns whether a text has a character of a set.
#[tactic(auto, unfolding(crate::specs::Characters::has_any))]
pub(crate) fn has_any(set: &[u8], text: &[u8]) -> bool
    ensures { result ≡ Characters.has_any set.now text.now }
{
    text.iter().any(|character| among(set, *character))
}

/// Returns whether a text has a character that begins a pattern or a brace expansion.
pub(crate) fn has_pattern(text: &[u8]) -> bool
    ensures { result ≡ Characters.has_pattern text.now }
{
    has_any(b"*?[{", text)
}

/// Returns whether a text begins with a tilde.
fn begins_with_tilde(text: &[u8]) -> bool
    ensures { result ≡ Characters.begins_with 126 text.now }
{
    match text {
        [first, ..] => *first == b'~',
        [] => false,
    }
}

/// Returns whether a tilde follows a `=` or a colon.
pub(crate) fn hides_tilde(text: &[u8]) -> bool
    ensures { result ≡ Characters.hides_tilde text.now }
{
    let mut rest = text;
    while let [first, more @ ..] = rest {
        if among(b"=:", *first) && begins_with_tilde(more) {
            return true;
        }
        rest = more;
    }
    false
}

/// Returns whether a text has a character that isn't in a set.
#[tactic(auto, unfolding(crate::specs::Characters::has_other))]
pub(crate) fn has_other(set: &[u8], text: &[u8]) -> bool
    ensures { result ≡ Characters.has_other set.now text.now }
{
    text.iter().any(|character| !among(set, *character))
}
