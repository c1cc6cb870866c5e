//! The words of a text.
ghost use Rattle.std.specs.Prelude.{◌≡◌, ◌++◌, IfOk, map};
ghost use Rattle.std.specs.List.{slice_split};
ghost use Rattle.casebook_needs.specs.Words.{inner_parts, is_quote, is_separator};
ghost use Rattle.casebook_needs.specs.Words.{words_of};

use crate::NoMem;
use std::alloc::Global;

/// Returns whether a byte is between words.
fn is_separator(byte: u8) -> bool
    ensures { result ≡ is_separator byte }
{
    b"\t\n |&;<>()'\"\\`${}=,:".contains(&byte)
}

/// Returns whether a byte is a quote.
fn is_quote(byte: u8) -> bool
    ensures { result ≡ is_quote byte }
{
    b"'\"".contains(&byte)
}

/// Splits a text at separators.
fn bare_words(alloc: Global, text: &[u8]) -> Result<Vec<&[u8]>, NoMem>
    ensures { IfOk result (λ words. map (λ word. word.now) words.items
        ≡ slice_split is_separator text.now) }
{
    text.split(|byte| is_separator(*byte)).collect(alloc)
}

/// Splits a text at quotes.
fn quoted_parts(alloc: Global, text: &[u8]) -> Result<Vec<&[u8]>, NoMem>
    ensures { IfOk result (λ words. map (λ word. word.now) words.items
        ≡ slice_split is_quote text.now) }
{
    text.split(|byte| is_quote(*byte)).collect(alloc)
}

/// Returns parts without the first and the last one.
fn inner_parts<'a, 'b>(parts: &'b [&'a [u8]]) -> &'b [&'a [u8]]
    ensures { map (λ part. part.now) result.now
        ≡ inner_parts (map (λ part. part.now) parts.now) }
{
    match parts {
        [_, inner @ .., _] => inner,
        _ => &[],
    }
}

/// Returns the words of a text: the parts between separators, followed by the parts between two
/// quotes. Some words are empty.
#[tactic(auto, unfolding(crate::specs::Words::words_of))]
pub fn words_of(alloc: Global, text: &[u8]) -> Result<Vec<&[u8]>, NoMem>
    ensures { IfOk result (λ words. map (λ word. word.now) words.items ≡ words_of text.now) }
{
    let mut words = bare_words(alloc, text)?;
    let parts = quoted_parts(alloc, text)?;
    words.extend_from_slice(inner_parts(parts.as_slice()))?;
    Ok(words)
}
