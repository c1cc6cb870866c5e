//! The paths that words name.
ghost use Rattle.std.specs.Prelude.{◌≡◌, ◌==◌, ◌++◌, IfOk, OnOk, map};
ghost use Rattle.std.specs.List.{list_any, position};
ghost use Rattle.std.specs.Option.{option_copied, option_to_list};
ghost use Rattle.retro_path.specs.Ascii.{nul};
ghost use Rattle.casebook_needs.specs.Named.{before_pattern, directory_text, home_paths};
ghost use Rattle.casebook_needs.specs.Named.{is_home_word, is_pattern, named_path, paths_of};
ghost use Rattle.casebook_needs.specs.Named.{pattern_directory, text_paths, up_to_slash};
ghost use Rattle.casebook_needs.specs.Named.{word_paths};

use crate::NoMem;
use crate::words::words_of;
use retro_path::{Path, Resolved, Text, resolve};
use std::alloc::Global;
use std::str::from_utf8;

/// Returns whether a text has a NUL.
pub(crate) fn has_nul(text: &[u8]) -> bool
    ensures { result ≡ list_any (λ b. b == nul) text.now }
{
    text.contains(&0)
}

/// Returns the path that a text names from a directory, or `None` if it names none: it isn't UTF-8,
/// has a NUL, is empty, or has a name that is too long.
#[tactic(auto, using(crate::proofs::Plain::texts))]
pub fn named_path(alloc: Global, directory: &Path, text: &[u8]) -> Result<Option<Path>, NoMem>
    ensures { IfOk result (λ path. path ≡ named_path directory.now text.now) }
{
    if has_nul(text) {
        return Ok(None);
    }
    let Ok(text) = from_utf8(text) else {
        return Ok(None);
    };
    match resolve(alloc, directory, text)? {
        Resolved::Is(path) => Ok(Some(path)),
        Resolved::Empty | Resolved::LongName => Ok(None),
    }
}

/// Returns whether a byte begins a pattern of names.
fn is_pattern(byte: u8) -> bool
    ensures { result ≡ is_pattern byte }
{
    b"*?[".contains(&byte)
}

/// Returns the index of the first byte that begins a pattern, or `None` if a text has no such byte.
fn pattern_in(text: &[u8]) -> Option<usize>
    ensures { result ≡ position is_pattern text.now }
{
    text.iter().position(|byte| is_pattern(*byte))
}

/// Returns what precedes the first byte of a pattern, or `None` if a text has no such byte.
fn before_pattern(text: &[u8]) -> Option<&[u8]>
    ensures { option_copied result ≡ before_pattern text.now }
{
    match pattern_in(text) {
        Some(end) => Some(&text[..end]),
        None => None,
    }
}

/// Returns a text up to its last slash, with the slash, or nothing if it has none.
fn up_to_slash(text: &[u8]) -> &[u8]
    ensures { result.now ≡ up_to_slash text.now }
{
    let mut end = 0;
    for (index, byte) in text.iter().enumerate() {
        if *byte == b'/' {
            end = index + 1;
        }
    }
    &text[..end]
}

/// Returns the text of the directory in which a pattern begins, or `None` if a text has no pattern.
#[tactic(auto, unfolding(crate::specs::Named::pattern_directory))]
fn pattern_directory(text: &[u8]) -> Option<&[u8]>
    ensures { option_copied result ≡ pattern_directory text.now }
{
    match before_pattern(text) {
        Some(front) => {
            let directory = up_to_slash(front);
            if directory.is_empty() {
                Some(b".")
            } else {
                Some(directory)
            }
        }
        None => None,
    }
}

/// Appends the path that a text names, if it names one.
fn push_named(
    alloc: Global,
    paths: &mut Vec<Path>,
    directory: &Path,
    text: &[u8],
) -> Result<(), NoMem>
    ensures { OnOk result (paths.new.items
        ≡ paths.old.items ++ option_to_list (named_path directory.now text.now)) }
{
    if let Some(path) = named_path(alloc, directory, text)? {
        paths.push(path)?;
    }
    Ok(())
}

/// Appends the paths that a text names: itself, and the directory of a pattern.
fn push_text(
    alloc: Global,
    paths: &mut Vec<Path>,
    directory: &Path,
    text: &[u8],
) -> Result<(), NoMem>
    ensures { OnOk result (paths.new.items
        ≡ paths.old.items ++ text_paths directory.now text.now) }
{
    push_named(alloc, paths, directory, text)?;
    if let Some(front) = pattern_directory(text) {
        push_named(alloc, paths, directory, front)?;
    }
    Ok(())
}

/// Returns whether a word is a tilde, or begins with a tilde and a slash.
pub(crate) fn is_home_word(word: &[u8]) -> bool
    ensures { result ≡ is_home_word word.now }
{
    matches!(word, [b'~'] | [b'~', b'/', ..])
}

/// Appends the paths that a word names if its tilde stands for a home directory.
fn push_home(
    alloc: Global,
    paths: &mut Vec<Path>,
    directory: &Path,
    home: Option<&Text>,
    word: &[u8],
) -> Result<(), NoMem>
    ensures { OnOk result (paths.new.items
        ≡ paths.old.items ++ home_paths directory.now (option_copied home.entry) word.now) }
{
    let Some(home) = home else {
        return Ok(());
    };
    if !is_home_word(word) {
        return Ok(());
    }
    let mut text = Vec::from_slice(alloc, home.bytes())?;
    text.extend_from_slice(&word[1..])?;
    push_text(alloc, paths, directory, text.as_slice())
}

/// Returns the paths that the words of a text name from a directory, by the value of `HOME`: each
/// word as it is, with a tilde in front as the home directory, and if it has a pattern, the
/// directory in which the pattern begins. Whether something is there doesn't matter.
#[tactic(auto, unfolding(crate::specs::Named::paths_of))]
pub fn paths_of(
    alloc: Global,
    directory: &Path,
    home: Option<&Text>,
    text: &[u8],
) -> Result<Vec<Path>, NoMem>
    ensures { IfOk result (λ paths. paths.items
        ≡ paths_of directory.now (option_copied home.entry) text.now) }
{
    let words = words_of(alloc, text)?;
    let mut paths = Vec::new(alloc);
    for word in &words {
        push_text(alloc, &mut paths, directory, word)?;
        push_home(alloc, &mut paths, directory, home, word)?;
    }
    Ok(paths)
}
