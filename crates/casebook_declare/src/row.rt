//! Rows of `declare -p`.
ghost use Rattle.std.specs.Prelude.{◌≡◌, IfOk, codes};
ghost use Rattle.casebook_declare.specs.Bytes.{equals};
ghost use Rattle.casebook_declare.specs.Parts.{cut_at};
ghost use Rattle.casebook_declare.specs.Rows.{array_row, flagged_row, is_unset_name, row_of};
ghost use Rattle.casebook_declare.specs.Rows.{said_by_kind, said_of, value_of};

use crate::NoMem;
use crate::array::is_array_value;
use crate::attributes::{Attributes, Kind};
use crate::parts::{after, cut_at};
use crate::said::quoted;
use crate::shell_name::{ShellName, is_shell_name};
use crate::variable::Variable;
use retro_path::Bytes;
use std::alloc::Global;

/// What each row begins with.
const START: &[u8; 9] = b"declare -";

/// What a row says.
#[derive(Drop)]
pub(crate) enum Row {
    /// A variable and its value.
    Says(Variable),
    /// Nothing: the variable is an array, the name of another one, or has no value.
    Nothing,
}

/// Returns whether a text is the name of a variable without a value.
fn is_unset_name(text: &[u8]) -> bool
    ensures { result ≡ is_unset_name text.now }
{
    is_shell_name(text) || text == b"-".as_slice()
}

/// Returns the value that a text is.
#[tactic(auto, unfolding(crate::specs::Rows::value_of))]
fn value_of(alloc: Global, text: &[u8]) -> Result<Option<Bytes>, NoMem>
    ensures { IfOk result (λ value. value ≡ value_of text.now) }
{
    match quoted(alloc, text)? {
        Some(said) if said.rest.is_empty() => Ok(Some(said.value)),
        _ => Ok(None),
    }
}

/// Returns what the row of an array says.
fn array_row(is_array: bool) -> Option<Row>
    ensures { result ≡ array_row is_array }
{
    if is_array { Some(Row::Nothing) } else { None }
}

/// Returns what a value says of the variable with a name.
fn said_by_kind(
    alloc: Global,
    attributes: Attributes,
    name: ShellName,
    text: &[u8],
) -> Result<Option<Row>, NoMem>
    ensures { IfOk result (λ row. row ≡ said_by_kind attributes.kind attributes name text.now) }
{
    match attributes.kind {
        Kind::Indexed => Ok(array_row(is_array_value(alloc, false, text)?)),
        Kind::Keyed => Ok(array_row(is_array_value(alloc, true, text)?)),
        Kind::Reference => Ok(value_of(alloc, text)?.map(|_| Row::Nothing)),
        Kind::Value => Ok(value_of(alloc, text)?.map(|value| {
            Row::Says(Variable {
                name,
                value,
                is_exported: attributes.is_exported,
                assignment: attributes.assignment,
            })
        })),
    }
}

/// Returns what a row says after its flags.
#[tactic(auto, unfolding(crate::specs::Rows::shell_name_of))]
fn said_of(alloc: Global, attributes: Attributes, text: &[u8]) -> Result<Option<Row>, NoMem>
    ensures { IfOk result (λ row. row ≡ said_of attributes text.now (cut_at equals text.now)) }
{
    let Some((name, value)) = cut_at(b'=', text) else {
        return Ok(if is_unset_name(text) {
            Some(Row::Nothing)
        } else {
            None
        });
    };
    match ShellName::of(alloc, name)? {
        Some(name) => said_by_kind(alloc, attributes, name, value),
        None => Ok(None),
    }
}

/// Returns what a row says, by its flags and what follows them.
#[tactic(auto, unfolding(crate::specs::Rows::flagged_row))]
fn flagged_row(alloc: Global, flags: &[u8], text: &[u8]) -> Result<Option<Row>, NoMem>
    ensures { IfOk result (λ row. row ≡ flagged_row (flags.now, text.now)) }
{
    match Attributes::of(flags) {
        Some(attributes) => said_of(alloc, attributes, text),
        None => Ok(None),
    }
}

/// Returns what a row says, or `None` if bash doesn't print it.
#[tactic(auto, unfolding(crate::specs::Rows::row_of))]
pub(crate) fn row_of(alloc: Global, row: &[u8]) -> Result<Option<Row>, NoMem>
    ensures { IfOk result (λ said. said ≡ row_of row.now) }
{
    let Some(text) = after(START.as_slice(), row) else {
        return Ok(None);
    };
    match cut_at(b' ', text) {
        Some((flags, rest)) => flagged_row(alloc, flags, rest),
        None => Ok(None),
    }
}
