//! Rows of what bash prints of its functions, aliases and options.
ghost use Rattle.std.specs.Prelude.{◌≡◌, ◌==◌, IfOk, map, option_map, position};
ghost use Rattle.std.specs.List.{list_all};
ghost use Rattle.casebook_shell.specs.Parts.{cut_at, is_blank};
ghost use Rattle.casebook_shell.specs.Rows.{alias_in, are_brackets, before_equals, ends_name};
ghost use Rattle.casebook_shell.specs.Rows.{equals, function_in, is_comment_row, is_set_option};
ghost use Rattle.casebook_shell.specs.Rows.{is_set_row, is_shopt_option, is_shopt_row, is_switch};
ghost use Rattle.casebook_shell.specs.Rows.{name_in, rows_of};

use crate::NoMem;
use crate::parts::{after, after_any, after_blanks, is_blank};
use std::alloc::Global;

/// Splits a text at its newlines.
pub(crate) fn rows_of(alloc: Global, text: &[u8]) -> Result<Vec<&[u8]>, NoMem>
    ensures { IfOk result (λ rows. map (λ row. row.now) rows.items ≡ rows_of text.now) }
{
    text.split(|byte| *byte == b'\n').collect(alloc)
}

/// Returns whether a byte ends the name of a function.
fn ends_name(byte: u8) -> bool
    ensures { result ≡ ends_name byte }
{
    b"\t '\"=(".contains(&byte)
}

/// Returns the index of the first byte that ends a name.
fn end_of_name(text: &[u8]) -> Option<usize>
    ensures { result ≡ position ends_name text.now }
{
    text.iter().position(|byte| ends_name(*byte))
}

/// Returns the texts before and from the first byte that ends a name, if some bytes precede it.
#[tactic(auto, unfolding(crate::specs::Parts::cut_at))]
fn cut_at_end<'t>(text: &'t [u8]) -> Option<(&'t [u8], &'t [u8])>
    ensures { option_map (λ cut. (cut.0.now, cut.1.now)) result ≡ cut_at ends_name text.now }
{
    match end_of_name(text) {
        Some(end) if end > 0 => Some((&text[..end], &text[end..])),
        _ => None,
    }
}

/// Returns whether all bytes are blanks.
fn are_blanks(text: &[u8]) -> bool
    ensures { result ≡ list_all is_blank text.now }
{
    text.iter().all(|byte| is_blank(*byte))
}

/// Returns whether a text is `()` with nothing but blanks round it.
fn are_brackets(text: &[u8]) -> bool
    ensures { result ≡ are_brackets text.now }
{
    match after(b"()".as_slice(), after_blanks(text)) {
        Some(rest) => are_blanks(rest),
        None => false,
    }
}

/// Returns the name of the function that a row begins to define.
#[tactic(auto, unfolding(crate::specs::Rows::function_in))]
fn function_in<'t>(row: &'t [u8]) -> Option<&'t [u8]>
    ensures { option_map (λ name. name.now) result ≡ function_in row.now }
{
    match cut_at_end(after_any(b"function ".as_slice(), after_blanks(row))) {
        Some((name, rest)) if are_brackets(rest) => Some(name),
        _ => None,
    }
}

/// Returns the index of the first `=`.
fn end_at_equals(text: &[u8]) -> Option<usize>
    ensures { result ≡ position (λ b. b == equals) text.now }
{
    text.iter().position(|byte| *byte == b'=')
}

/// Returns the name before a `=`.
#[tactic(auto, unfolding(crate::specs::Parts::cut_at))]
fn before_equals<'t>(text: &'t [u8]) -> Option<&'t [u8]>
    ensures { option_map (λ name. name.now) result ≡ before_equals text.now }
{
    match end_at_equals(text) {
        Some(end) if end > 0 => Some(&text[..end]),
        _ => None,
    }
}

/// Returns the name of the alias of a row.
#[tactic(auto, unfolding(crate::specs::Rows::alias_in))]
fn alias_in<'t>(row: &'t [u8]) -> Option<&'t [u8]>
    ensures { option_map (λ name. name.now) result ≡ alias_in row.now }
{
    match after(b"alias ".as_slice(), row) {
        Some(text) => before_equals(after_any(b"-- ".as_slice(), text)),
        None => None,
    }
}

/// Returns the name of a function or an alias in a row.
pub(crate) fn name_in<'t>(row: &'t [u8]) -> Option<&'t [u8]>
    ensures { option_map (λ name. name.now) result ≡ name_in row.now }
{
    match function_in(row) {
        Some(name) => Some(name),
        None => alias_in(row),
    }
}

/// Returns whether lines mean something else under an option of `set`.
fn is_set_option(name: &[u8]) -> bool
    ensures { result ≡ is_set_option name.now }
{
    name == b"noclobber".as_slice()
        || name == b"errexit".as_slice()
        || name == b"nounset".as_slice()
        || name == b"noexec".as_slice()
        || name == b"pipefail".as_slice()
        || name == b"physical".as_slice()
        || name == b"keyword".as_slice()
        || name == b"posix".as_slice()
        || name == b"onecmd".as_slice()
}

/// Returns whether lines mean something else under an option of `shopt`.
fn is_shopt_option(name: &[u8]) -> bool
    ensures { result ≡ is_shopt_option name.now }
{
    name == b"xpg_echo".as_slice()
        || name == b"cdable_vars".as_slice()
        || name == b"cdspell".as_slice()
        || name == b"lastpipe".as_slice()
}

/// Returns whether a row switches on an option of `set` under which lines mean something else.
fn is_set_row(row: &[u8]) -> bool
    ensures { result ≡ is_set_row row.now }
{
    match after(b"set -o ".as_slice(), row) {
        Some(name) => is_set_option(name),
        None => false,
    }
}

/// Returns whether a row switches on an option of `shopt` under which lines mean something else.
fn is_shopt_row(row: &[u8]) -> bool
    ensures { result ≡ is_shopt_row row.now }
{
    match after(b"shopt -s ".as_slice(), row) {
        Some(name) => is_shopt_option(name),
        None => false,
    }
}

/// Returns whether a row says that what follows a `#` is no comment.
fn is_comment_row(row: &[u8]) -> bool
    ensures { result ≡ is_comment_row row.now }
{
    row == b"shopt -u interactive_comments".as_slice()
}

/// Returns whether a row sets an option so that lines mean something else.
#[tactic(auto, unfolding(crate::specs::Rows::is_switch))]
pub(crate) fn is_switch(row: &[u8]) -> bool
    ensures { result ≡ is_switch row.now }
{
    is_set_row(row) || is_shopt_row(row) || is_comment_row(row)
}
