//! Names of files in a patch.
ghost use Rattle.std.specs.Prelude.{◌≡◌, ◌++◌, OnOk, flat_map};
ghost use Rattle.std.specs.List.{list_any};
ghost use Rattle.casebook_patch.specs.Quoted.{escaped, is_quoted, is_special, letter_of, octal};
ghost use Rattle.casebook_patch.specs.Quoted.{quoted};

use crate::NoMem;

/// Returns the letter that stands for a byte after a backslash, or `None` if none does.
fn letter_of(byte: u8) -> Option<u8>
    ensures { result ≡ letter_of byte }
{
    match byte {
        7 => Some(b'a'),
        8 => Some(b'b'),
        b'\t' => Some(b't'),
        b'\n' => Some(b'n'),
        11 => Some(b'v'),
        12 => Some(b'f'),
        b'\r' => Some(b'r'),
        b'"' => Some(b'"'),
        b'\\' => Some(b'\\'),
        _ => None,
    }
}

/// Returns whether a byte isn't written as it is: control codes, bytes outside ASCII, quotes and
/// backslashes.
fn is_special(byte: u8) -> bool
    ensures { result ≡ is_special byte }
{
    byte < 32 || byte >= 127 || byte == b'"' || byte == b'\\'
}

/// Returns the octal digits of a byte.
fn octal(byte: u8) -> [u8; 3]
    ensures { result ≡ octal byte }
{
    [b'0' + byte / 64, b'0' + byte / 8 % 8, b'0' + byte % 8]
}

/// Appends a byte, or its escape if it is special.
fn push_escaped(text: &mut Vec<u8>, byte: u8) -> Result<(), NoMem>
    ensures { OnOk result (text.new.items ≡ text.old.items ++ escaped byte) }
{
    if !is_special(byte) {
        return text.extend_from_slice(&[byte]);
    }
    match letter_of(byte) {
        Some(letter) => text.extend_from_slice(&[b'\\', letter]),
        None => {
            text.push(b'\\')?;
            text.extend_from_slice(&octal(byte))
        }
    }
}

/// Appends bytes, each as it is or escaped.
fn push_all_escaped(text: &mut Vec<u8>, name: &[u8]) -> Result<(), NoMem>
    ensures { OnOk result (text.new.items ≡ text.old.items ++ flat_map escaped name.now) }
{
    for byte in name {
        push_escaped(text, *byte)?;
    }
    Ok(())
}

/// Returns whether a name is put into quotes: if it has special bytes or spaces.
fn needs_quotes(name: &[u8]) -> bool
    ensures { result ≡ list_any is_quoted name.now }
{
    name.iter().any(|byte| is_special(*byte) || *byte == b' ')
}

/// Appends the name of a file, in quotes if it has special bytes or spaces.
pub(crate) fn push_quoted(text: &mut Vec<u8>, name: &[u8]) -> Result<(), NoMem>
    ensures { OnOk result (text.new.items ≡ text.old.items ++ quoted name.now) }
{
    if !needs_quotes(name) {
        return text.extend_from_slice(name);
    }
    text.push(b'"')?;
    push_all_escaped(text, name)?;
    text.push(b'"')?;
    Ok(())
}
