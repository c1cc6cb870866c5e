//! The variables that a text names after a dollar sign.
ghost use Rattle.std.specs.Prelude.{◌≡◌, ◌==◌, ◌++◌, IfOk, drop, map};
ghost use Rattle.std.specs.List.{before_first, filter_map, list_any, position, slice_split};
ghost use Rattle.casebook_needs.specs.Variables.{after_dollars, dollar, ends_name, is_status};
ghost use Rattle.casebook_needs.specs.Variables.{names_status, variable_after, variables_of};
ghost use Rattle.casebook_needs.specs.Variables.{without_brace, without_operator};

use crate::NoMem;
use retro_path::VarName;
use std::alloc::Global;
use std::str::from_utf8;

/// Splits a text at dollar signs.
fn dollar_parts(alloc: Global, text: &[u8]) -> Result<Vec<&[u8]>, NoMem>
    ensures { IfOk result (λ parts. map (λ part. part.now) parts.items
        ≡ slice_split (λ b. b == dollar) text.now) }
{
    text.split(|byte| *byte == b'$').collect(alloc)
}

/// Returns what follows each dollar sign of a text, up to the next one.
#[tactic(auto, unfolding(crate::specs::Variables::after_dollars))]
fn after_dollars(alloc: Global, text: &[u8]) -> Result<Vec<&[u8]>, NoMem>
    ensures { IfOk result (λ parts. map (λ part. part.now) parts.items ≡ after_dollars text.now) }
{
    let parts = dollar_parts(alloc, text)?;
    match parts.as_slice() {
        [] => Ok(Vec::new(alloc)),
        [_, rest @ ..] => Vec::from_slice(alloc, rest),
    }
}

/// Returns a text without a `#` or a `!` at its front.
fn without_operator(text: &[u8]) -> &[u8]
    ensures { result.now ≡ without_operator text.now }
{
    match text {
        [b'#' | b'!', rest @ ..] => rest,
        _ => text,
    }
}

/// Returns what follows a dollar sign, without a brace at its front, and without a `#` or a `!`
/// after the brace.
fn without_brace(text: &[u8]) -> &[u8]
    ensures { result.now ≡ without_brace text.now }
{
    match text {
        [b'{', rest @ ..] => without_operator(rest),
        _ => text,
    }
}

/// Returns whether a byte can't be in the name of a variable.
fn ends_name(byte: u8) -> bool
    ensures { result ≡ ends_name byte }
{
    !VarName::may_continue_with(char::from(byte))
}

/// Returns the index of the first byte that can't be in a name, or `None` if all bytes can.
fn end_of_name(text: &[u8]) -> Option<usize>
    ensures { result ≡ position ends_name text.now }
{
    text.iter().position(|byte| ends_name(*byte))
}

/// Returns what precedes the first byte that can't be in a name.
fn name_in(text: &[u8]) -> &[u8]
    ensures { result.now ≡ before_first ends_name text.now }
{
    match end_of_name(text) {
        Some(end) => &text[..end],
        None => text,
    }
}

/// Returns the variable that is named after a dollar sign, if a line can assign one of that name.
#[tactic(auto, unfolding(crate::specs::Variables::variable_after))]
fn variable_after(alloc: Global, part: &[u8]) -> Result<Option<VarName>, NoMem>
    ensures { IfOk result (λ name. name ≡ variable_after part.now) }
{
    match from_utf8(name_in(without_brace(part))) {
        Ok(name) => VarName::of(alloc, name),
        Err(_) => Ok(None),
    }
}

/// Returns the variables that a text names by `$name`, `${name`, `${#name` or `${!name`, in order.
#[tactic(auto, unfolding(crate::specs::Variables::variables_of))]
pub fn variables_of(alloc: Global, text: &[u8]) -> Result<Vec<VarName>, NoMem>
    ensures { IfOk result (λ names. names.items ≡ variables_of text.now) }
{
    let mut names = Vec::new(alloc);
    for part in &after_dollars(alloc, text)? {
        if let Some(name) = variable_after(alloc, part)? {
            names.push(name)?;
        }
    }
    Ok(names)
}

/// Returns whether a text begins with a question mark.
fn is_status(text: &[u8]) -> bool
    ensures { result ≡ is_status text.now }
{
    matches!(text, [b'?', ..])
}

/// Returns whether a text has `$?` or `${?`.
#[tactic(auto, unfolding(crate::specs::Variables::names_status))]
pub(crate) fn names_status(alloc: Global, text: &[u8]) -> Result<bool, NoMem>
    ensures { IfOk result (λ named. named ≡ names_status text.now) }
{
    for part in &after_dollars(alloc, text)? {
        if is_status(without_brace(part)) {
            return Ok(true);
        }
    }
    Ok(false)
}
