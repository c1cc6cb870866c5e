//! Texts of `declare -p`.
ghost use Rattle.std.specs.Prelude.{◌≡◌, ◌==◌, IfOk, map};
ghost use Rattle.std.specs.List.{slice_split};
ghost use Rattle.retro_path.specs.Ascii.{newline};
ghost use Rattle.casebook_declare.specs.Reads.{Reads};
ghost use Rattle.casebook_declare.specs.Texts.{rows_from, variables_of};

use crate::NoMem;
use crate::declare_error::DeclareError;
use crate::row::{Row, row_of};
use crate::variable::Variable;
use std::alloc::Global;

/// Splits a text at its newlines. Returns the parts, empty ones too.
fn rows_of(alloc: Global, text: &[u8]) -> Result<Vec<&[u8]>, NoMem>
    ensures { IfOk result (λ rows. map (λ row. row.now) rows.items
        ≡ slice_split (λ b. b == newline) text.now) }
{
    text.split(|byte| *byte == b'\n').collect(alloc)
}

/// Returns the variables that rows say, in order.
fn variables_in(alloc: Global, rows: &[&[u8]]) -> Result<Vec<Variable>, DeclareError>
    ensures { Reads (λ variables. variables.items) result
        (rows_from 1 (map (λ row. row.now) rows.now)) }
{
    let mut variables = Vec::new(alloc);
    for (index, row) in rows.iter().enumerate() {
        let Some(row) = row_of(alloc, row)? else {
            return Err(DeclareError::NotPrinted(index + 1));
        };
        match row {
            Row::Says(variable) => variables.push(variable)?,
            Row::Nothing => {}
        }
    }
    Ok(variables)
}

/// Returns the variables that a text says, in the order of its rows.
#[tactic(auto, unfolding(crate::specs::Texts::variables_of))]
pub fn variables(alloc: Global, text: &[u8]) -> Result<Vec<Variable>, DeclareError>
    ensures { Reads (λ variables. variables.items) result (variables_of text.now) }
{
    match text {
        [] => Ok(Vec::new(alloc)),
        [rows @ .., b'\n'] => {
            let rows = rows_of(alloc, rows)?;
            variables_in(alloc, rows.as_slice())
        }
        _ => Err(DeclareError::CutOff),
    }
}
