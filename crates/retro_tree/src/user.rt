//! The users of the password file.
ghost use Rattle.std.specs.Prelude.{◌≡◌, ◌==◌, ◌++◌, ◌∷◌, [], IfOk, map, nat_eq, option_map};
ghost use Rattle.std.specs.List.{slice_split, list_all, starts_with};
ghost use Rattle.std.specs.Char.{is_ascii_digit};
ghost use Rattle.retro_tree.specs.User.{plain_text, user_number, named, entry_by, entry_of_line};
ghost use Rattle.retro_tree.specs.User.{find_user};

use retro_path::{NoMem, Text};
use std::alloc::Global;
use std::str;

/// The maximum number of digits in the number of a user.
const MAX_DIGITS: usize = 10;

/// What the password file says of a login name.
#[derive(Drop, Clone, PartialEq, Eq)]
pub struct User {
    /// The user's number.
    pub number: u32,
    /// The home directory, as the file has it.
    pub home: Text,
}

/// Splits bytes at a separator.
fn split(alloc: Global, bytes: &[u8], separator: u8) -> Result<Vec<&[u8]>, NoMem>
    ensures { IfOk result (λ parts. map (λ part. part.now) parts.items
        ≡ slice_split (λ b. b == separator) bytes.now) }
{
    bytes.split(|byte| *byte == separator).collect(alloc)
}

/// Returns bytes as a text, or `None` if they aren't UTF-8 or have a NUL.
#[tactic(auto, using(crate::proofs::Users::texts))]
fn plain_text(bytes: &[u8]) -> Option<&str>
    ensures { option_map (λ text. text.now) result ≡ plain_text bytes.now }
{
    let Ok(text) = str::from_utf8(bytes) else {
        return None;
    };
    if bytes.contains(&0) {
        return None;
    }
    Some(text)
}

/// Returns whether all bytes are decimal digits.
fn are_digits(bytes: &[u8]) -> bool
    ensures { result ≡ list_all is_ascii_digit bytes.now }
{
    bytes.iter().all(|byte| byte.is_ascii_digit())
}

/// Returns the number that one to ten digits write, or `None` if the bytes aren't such digits or
/// the number is over 4,294,967,295.
#[tactic(auto, using(crate::proofs::Users::numbers))]
fn user_number(digits: &[u8]) -> Option<u32>
    ensures { result ≡ user_number digits.now }
{
    if digits.len() > MAX_DIGITS || !are_digits(digits) {
        return None;
    }
    match str::from_utf8(digits) {
        Ok(text) => text.parse::<u32>().ok(),
        Err(_) => None,
    }
}

/// Returns the user of these fields, or `None` if they aren't well formed or the login name isn't
/// `name`.
fn user_of_fields(
    alloc: Global,
    name: &Text,
    login: &[u8],
    number: &[u8],
    home: &[u8],
) -> Result<Option<User>, NoMem>
    ensures { IfOk result (λ user. user
        ≡ named name.now (entry_by login.now number.now home.now)) }
{
    if login.is_empty() || login != name.bytes() || plain_text(login).is_none() {
        return Ok(None);
    }
    let Some(home) = plain_text(home) else {
        return Ok(None);
    };
    let Some(number) = user_number(number) else {
        return Ok(None);
    };
    let home = Text::of(String::from_str(alloc, home)?);
    Ok(Some(User { number, home }))
}

/// Returns whether a line begins with `field` and a colon.
#[tactic(auto, using(crate::proofs::Users::field_and_colon))]
fn begins_with_field(line: &[u8], field: &[u8]) -> bool
    ensures { result ≡ starts_with nat_eq line.now (field.now ++ 58 ∷ []) }
{
    line.starts_with(field) && line[field.len()..].starts_with(b":")
}

/// Returns the user of a line, or `None` if the line isn't well formed or its login name isn't
/// `name`. A line has seven fields, separated by colons.
#[tactic(auto, using(crate::proofs::Users::other_name), unfolding(crate::specs::User::entry_of_line))]
fn user_of_line(alloc: Global, name: &Text, line: &[u8]) -> Result<Option<User>, NoMem>
    ensures { IfOk result (λ user. user ≡ named name.now (entry_of_line line.now)) }
{
    if !begins_with_field(line, name.bytes()) {
        return Ok(None);
    }
    let fields = split(alloc, line, b':')?;
    match fields.as_slice() {
        [login, _, number, _, _, home, _] => user_of_fields(alloc, name, login, number, home),
        _ => Ok(None),
    }
}

/// Returns the user with a login name from the bytes of the password file: from the first
/// well-formed line that has the name. Returns `None` if no line does.
#[tactic(auto, unfolding(crate::specs::User::find_user))]
pub fn find_user(alloc: Global, name: &Text, bytes: &[u8]) -> Result<Option<User>, NoMem>
    ensures { IfOk result (λ user. user ≡ find_user name.now bytes.now) }
{
    for line in bytes.split(|byte| *byte == b'\n') {
        if let Some(user) = user_of_line(alloc, name, line)? {
            return Ok(Some(user));
        }
    }
    Ok(None)
}
