//! Decimal numbers.
ghost use Rattle.std.specs.Prelude.{◌≡◌};
ghost use Rattle.std.specs.Str.{all_ascii_digits};
ghost use Rattle.retro_text.specs.Numbers.{number_in};

/// The greatest number of digits of a number.
const MOST_DIGITS: usize = 10;

/// Returns whether all bytes are ASCII digits.
fn are_digits(text: &[u8]) -> bool
    ensures { result ≡ all_ascii_digits text.now }
{
    for byte in text {
        if !byte.is_ascii_digit() {
            return false;
        }
    }
    true
}

/// Returns the decimal number that a text is, or `None` if the text isn't one to ten digits or the
/// number is over 4,294,967,295.
#[tactic(auto, unfolding(crate::specs::Numbers::number_in))]
pub fn number_of(text: &str) -> Option<u32>
    ensures { result ≡ number_in text.now }
{
    if text.len() > MOST_DIGITS || !are_digits(text.as_bytes()) {
        return None;
    }
    text.parse().ok()
}
