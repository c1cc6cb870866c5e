//! The variables of sessions.
ghost use Rattle.std.specs.Prelude.{◌≡◌, IfOk, OnOk};
ghost use Rattle.std.specs.FinMap as finmap;
ghost use Rattle.casebook_import.specs.Variables.{value_text, vars_of, with_variable};
ghost use Rattle.casebook_import.specs.Variables.{with_variables};

use crate::NoMem;
use crate::opaque::opaque_bytes;
use crate::said_vars::SaidVars;
use casebook_declare::{DeclareError, Variable, variables};
use retro_tree::{Text, VALUE_LIMIT, VarName};
use std::alloc::Global;
use std::str::from_utf8;

/// Returns a value as a text. Another text stands for one that a state can't hold.
#[tactic(auto, using(crate::proofs::Values::values))]
fn value_text(alloc: Global, value: &[u8]) -> Result<Text, NoMem>
    ensures { IfOk result (λ text. text ≡ value_text value.now) }
{
    if value.len() > VALUE_LIMIT {
        return Ok(Text::of(opaque_bytes(alloc, "a value", value)?));
    }
    match from_utf8(value) {
        Ok(text) => Ok(Text::of(String::from_str(alloc, text)?)),
        Err(_) => Ok(Text::of(opaque_bytes(alloc, "a value", value)?)),
    }
}

/// Sets a variable, unless no line of Retro's shell can assign it.
fn add_variable(alloc: Global, vars: &mut SaidVars, variable: &Variable) -> Result<(), NoMem>
    ensures { OnOk result (vars.new ≡ with_variable variable.now vars.old) }
{
    if let Some(name) = VarName::of(alloc, variable.name.as_str())? {
        vars.insert(name, value_text(alloc, variable.value.as_slice())?)?;
    }
    Ok(())
}

/// Returns the variables with their values. Of two with one name the later one counts.
fn with_variables(alloc: Global, all: &[Variable]) -> Result<SaidVars, NoMem>
    ensures { IfOk result (λ vars. vars ≡ with_variables all.now finmap.empty) }
{
    let mut vars = SaidVars::new(alloc);
    for variable in all {
        add_variable(alloc, &mut vars, variable)?;
    }
    Ok(vars)
}

/// Returns the variables that a text of `declare -p` says, or `None` if no bash prints it.
#[tactic(auto, unfolding(crate::specs::Variables::vars_of))]
pub(crate) fn vars_of(alloc: Global, text: &[u8]) -> Result<Option<SaidVars>, NoMem>
    ensures { IfOk result (λ found. found ≡ vars_of text.now) }
{
    match variables(alloc, text) {
        Ok(all) => Ok(Some(with_variables(alloc, all.as_slice())?)),
        Err(DeclareError::NoMem) => Err(NoMem),
        Err(DeclareError::CutOff | DeclareError::NotPrinted(_)) => Ok(None),
    }
}
