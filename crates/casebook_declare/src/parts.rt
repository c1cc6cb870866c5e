//! Parts of texts.
ghost use Rattle.std.specs.Prelude.{◌≡◌, ◌==◌, option_map, position};
ghost use Rattle.casebook_declare.specs.Parts.{after, cut_at};

/// Returns the index of the first such byte, if there is one.
fn place_of(separator: u8, text: &[u8]) -> Option<usize>
    ensures { result ≡ position (λ b. b == separator) text.now }
{
    text.iter().position(|byte| *byte == separator)
}

/// Returns the texts before and after the first such byte, if there is one.
#[tactic(auto, unfolding(crate::specs::Parts::cut_at))]
pub(crate) fn cut_at<'t>(separator: u8, text: &'t [u8]) -> Option<(&'t [u8], &'t [u8])>
    ensures { option_map (λ cut. (cut.0.now, cut.1.now)) result ≡ cut_at separator text.now }
{
    match place_of(separator, text) {
        Some(place) => Some((&text[..place], &text[place + 1..])),
        None => None,
    }
}

/// Returns what follows a text that another one begins with.
pub(crate) fn after<'t>(front: &[u8], text: &'t [u8]) -> Option<&'t [u8]>
    ensures { option_map (λ rest. rest.now) result ≡ after front.now text.now }
{
    text.strip_prefix(front)
}
