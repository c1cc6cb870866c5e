//! Numbers in fields.
ghost use Rattle.std.specs.Prelude.{◌≡◌, ◌<◌, ◌^◌, ◌-◌, length, IfSome, MatchOption, true, false};
ghost use Rattle.casebook_record.specs.Numbers.{decimal_of, digit_of, digits_value};
ghost use Rattle.casebook_record.specs.Numbers.{has_leading_zero, number_of, status_of};

/// The most digits of a number.
const MOST_DIGITS: usize = 18;

/// The first digit.
const ZERO: u8 = b'0';

/// Returns the value of a digit of a base.
pub(crate) fn digit_of(base: u8, byte: u8) -> Option<u8>
    requires { base < 11 }
    ensures value { result ≡ digit_of base byte }
    ensures small { IfSome result (λ digit. digit < base) }
{
    if byte >= ZERO && byte < ZERO + base {
        Some(byte - ZERO)
    } else {
        None
    }
}

/// Returns the number of at most 18 decimal digits.
fn digits_value(digits: &[u8]) -> Option<u64>
    requires { length digits.now < 19 }
    ensures { result ≡ digits_value 10 0 digits.now }
{
    let mut value = 0u64;
    for byte in digits {
        match digit_of(10, *byte) {
            Some(digit) => value = 10 * value + u64::from(digit),
            None => return None,
        }
    }
    Some(value)
}

/// Returns whether there are two digits or more, of which the first is a zero.
fn has_leading_zero(digits: &[u8]) -> bool
    ensures { result ≡ has_leading_zero digits.now }
{
    match digits {
        [first, _, ..] => *first == ZERO,
        _ => false,
    }
}

/// Returns the number of 1 to 18 decimal digits without leading zeros.
#[tactic(auto, unfolding(crate::specs::Numbers::decimal_of))]
pub(crate) fn decimal_of(field: &[u8]) -> Option<u64>
    ensures { result ≡ decimal_of field.now }
{
    if field.is_empty() || field.len() > MOST_DIGITS || has_leading_zero(field) {
        return None;
    }
    digits_value(field)
}

/// Returns the decimal number of 32 bits that a field is.
#[tactic(auto, unfolding(crate::specs::Numbers::number_of))]
pub(crate) fn number_of(field: &[u8]) -> Option<u32>
    ensures { result ≡ number_of field.now }
{
    match decimal_of(field) {
        Some(number) if number <= 0xffff_ffff => Some(number as u32),
        _ => None,
    }
}

/// Returns the status from 0 to 255 that a field is.
#[tactic(auto, unfolding(crate::specs::Numbers::status_of))]
pub(crate) fn status_of(field: &[u8]) -> Option<u8>
    ensures { result ≡ status_of field.now }
{
    match decimal_of(field) {
        Some(number) if number <= 255 => Some(number as u8),
        _ => None,
    }
}
