//! Kinds of characters (XCU 2.2, 2.3).

ghost use Rattle.std.specs.Prelude.{◌≡◌};
ghost use Rattle.retro_syntax.specs.Quoting;

/// Returns whether a character separates tokens.
pub fn is_blank(c: char) -> bool
    ensures { result ≡ Quoting.is_blank c }
{
    c == ' ' || c == '\t'
}

/// Returns whether an operator begins with a character.
pub fn is_operator(c: char) -> bool
    ensures { result ≡ Quoting.is_operator c }
{
    c == ';' || c == '&' || c == '|' || c == '<' || c == '>'
}

/// Returns whether a character is refused outside quotes.
pub fn is_refused(c: char) -> bool
    ensures { result ≡ Quoting.is_refused c }
{
    c == '\0' || c == '\n' || c == '(' || c == ')' || c == '`'
}

/// Returns whether a character after `$` begins a parameter or a substitution that isn't
/// supported.
pub fn is_other_parameter(c: char) -> bool
    ensures { result ≡ Quoting.is_other_parameter c }
{
    c.is_ascii_digit()
        || c == '@'
        || c == '*'
        || c == '#'
        || c == '-'
        || c == '$'
        || c == '!'
        || c == '('
}

/// Returns whether a backslash quotes a character in double quotes.
pub fn is_special_inside(c: char) -> bool
    ensures { result ≡ Quoting.is_special_inside c }
{
    c == '$' || c == '`' || c == '"' || c == '\\'
}
