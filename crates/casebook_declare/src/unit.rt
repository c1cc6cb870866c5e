//! The bytes of quoted values, as bash prints them.
ghost use Rattle.std.specs.Prelude.{◌≡◌, ◌+◌, ◌≤◌, IfSome, OnSome, length};
ghost use Rattle.casebook_declare.specs.inner.Views.{IsWithin};
ghost use Rattle.casebook_declare.specs.Units.{ansi_unit, byte_of_letter, coded, double_unit};
ghost use Rattle.casebook_declare.specs.Units.{escape_of, escaped};
ghost use Rattle.casebook_declare.specs.Units.{has_letter, has_octal, is_octal_digit, is_plain};
ghost use Rattle.casebook_declare.specs.Units.{is_special, octal, plain};

/// DEL.
const DELETE: u8 = 127;

/// A byte of a value, as a text has it.
#[derive(Clone, Copy, Debug, Drop)]
pub(crate) struct Unit {
    /// The byte.
    pub byte: u8,
    /// How many bytes of the text say it.
    pub width: usize,
    /// Whether it is escaped since it can't be printed as it is.
    pub is_code: bool,
}

/// Returns whether a byte can be printed as it is. The locale decides it of those outside ASCII.
pub(crate) fn is_plain(byte: u8) -> bool
    ensures { result ≡ is_plain byte }
{
    byte >= b' ' && byte != DELETE
}

/// Returns whether a byte has a backslash before it in double quotes.
fn is_special(byte: u8) -> bool
    ensures { result ≡ is_special byte }
{
    byte == b'"' || byte == b'$' || byte == b'\\' || byte == b'`'
}

/// Returns the byte that a letter after a backslash says.
#[tactic(auto, unfolding(crate::specs::Units::byte_of_letter))]
fn byte_of_letter(letter: u8) -> Option<u8>
    ensures { result ≡ byte_of_letter letter }
{
    match letter {
        b'a' => Some(0x07),
        b'b' => Some(0x08),
        b't' => Some(b'\t'),
        b'n' => Some(b'\n'),
        b'v' => Some(0x0b),
        b'f' => Some(0x0c),
        b'r' => Some(b'\r'),
        b'E' => Some(0x1b),
        _ => None,
    }
}

/// Returns whether a byte has an escape with a letter.
#[tactic(auto, unfolding(crate::specs::Units::has_letter))]
fn has_letter(byte: u8) -> bool
    ensures { result ≡ has_letter byte }
{
    (byte >= 0x07 && byte <= b'\r') || byte == 0x1b
}

/// Returns whether a byte has an escape of three octal digits.
#[tactic(auto, unfolding(crate::specs::Units::has_octal))]
fn has_octal(byte: u8) -> bool
    ensures { result ≡ has_octal byte }
{
    byte != 0 && !has_letter(byte) && (byte < b' ' || byte >= DELETE)
}

/// Returns whether a byte is an octal digit.
fn is_octal_digit(byte: u8) -> bool
    ensures { result ≡ is_octal_digit byte }
{
    byte >= b'0' && byte < b'8'
}

/// Returns the byte that three octal digits at the front of a text are, if it has such an escape.
#[tactic(auto, unfolding(crate::specs::Units::octal))]
fn octal(text: &[u8]) -> Option<u8>
    ensures value { result ≡ octal text.now }
    ensures digits { OnSome result (3 ≤ length text.now) }
{
    let [first, second, third, ..] = text else {
        return None;
    };
    if !(is_octal_digit(*first) && is_octal_digit(*second) && is_octal_digit(*third)) {
        return None;
    }
    let high = u16::from(*first - b'0');
    let middle = u16::from(*second - b'0');
    let low = u16::from(*third - b'0');
    match u8::try_from(64 * high + 8 * middle + low) {
        Ok(byte) if has_octal(byte) => Some(byte),
        _ => None,
    }
}

impl Unit {
    /// Returns a byte that is printed as it is.
    fn plain(byte: u8) -> Unit
        ensures { result ≡ plain byte }
    {
        Unit {
            byte,
            width: 1,
            is_code: false,
        }
    }

    /// Returns a byte that has a backslash before it.
    fn escaped(byte: u8) -> Unit
        ensures { result ≡ escaped byte }
    {
        Unit {
            byte,
            width: 2,
            is_code: false,
        }
    }

    /// Returns a byte that has an escape of so many bytes.
    fn coded(width: usize, byte: u8) -> Unit
        ensures { result ≡ coded width byte }
    {
        Unit {
            byte,
            width,
            is_code: true,
        }
    }

    /// Returns the byte that a text in double quotes begins with.
    pub(crate) fn in_double_quotes(text: &[u8]) -> Option<Unit>
        ensures value { result ≡ double_unit text.now }
        ensures width { IfSome result (λ unit. IsWithin unit.width (length text.now)) }
    {
        match text {
            [b'\\', byte, ..] if is_special(*byte) => Some(Unit::escaped(*byte)),
            [byte, ..] if is_plain(*byte) && !is_special(*byte) => Some(Unit::plain(*byte)),
            _ => None,
        }
    }

    /// Returns what a backslash and the text after it begin with.
    fn escape_of(text: &[u8]) -> Option<Unit>
        ensures value { result ≡ escape_of text.now }
        ensures width { IfSome result (λ unit. IsWithin unit.width (length text.now + 1)) }
    {
        let [first, ..] = text else {
            return None;
        };
        if *first == b'\\' || *first == b'\'' {
            return Some(Unit::escaped(*first));
        }
        match byte_of_letter(*first) {
            Some(byte) => Some(Unit::coded(2, byte)),
            None => octal(text).map(|byte| Unit::coded(4, byte)),
        }
    }

    /// Returns the byte that a text begins with that `$'` precedes.
    pub(crate) fn in_ansi_quotes(text: &[u8]) -> Option<Unit>
        ensures value { result ≡ ansi_unit text.now }
        ensures width { IfSome result (λ unit. IsWithin unit.width (length text.now)) }
    {
        match text {
            [b'\\', rest @ ..] => Unit::escape_of(rest),
            [byte, ..] if is_plain(*byte) && *byte != b'\'' => Some(Unit::plain(*byte)),
            _ => None,
        }
    }
}
