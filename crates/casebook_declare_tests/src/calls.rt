//! The calls of rows.
use casebook_declare::{DeclareError, Variable, variables};
use std::alloc::Global;
use std::test::Fail;

/// Returns a variable as a text, with its value as a text too.
fn variable_text(alloc: Global, variable: &Variable, value: &str) -> Result<String, Fail> {
    Ok(format!(in alloc;
        "{} {value} {} {:?}",
        variable.name.as_str(),
        if variable.is_exported {
            "exported"
        } else {
            "own"
        },
        variable.assignment
    )?)
}

/// Returns a variable as a text, with its value in brackets.
fn bracketed(alloc: Global, variable: &Variable) -> Result<String, Fail> {
    let value = str::from_utf8(variable.value.as_slice())?;
    variable_text(alloc, variable, format!(in alloc; "[{value}]")?.as_str())
}

/// Returns a variable as a text, with the hexadecimal digits of its value.
fn in_digits(alloc: Global, variable: &Variable) -> Result<String, Fail> {
    let digits = hex::encode(alloc, variable.value.as_slice())?;
    variable_text(
        alloc,
        variable,
        format!(in alloc; "hex {}", digits.as_str())?.as_str(),
    )
}

/// Returns an error as a text.
fn error_text(alloc: Global, error: DeclareError) -> Result<String, Fail> {
    Ok(format!(in alloc; "{error:?}")?)
}

/// Returns the variables that rows say, each ended by a newline.
pub fn rows(alloc: Global, rows: &[String]) -> Result<String, Fail> {
    let mut text = String::new(alloc);
    for row in rows {
        text.push_str(row)?;
        text.push('\n')?;
    }
    let mut out = String::new(alloc);
    match variables(alloc, text.as_bytes()) {
        Ok(variables) => {
            for variable in &variables {
                if !out.is_empty() {
                    out.push_str(", ")?;
                }
                out.push_str(bracketed(alloc, variable)?.as_str())?;
            }
            Ok(out)
        }
        Err(error) => error_text(alloc, error),
    }
}

/// Returns the variables that bytes say which are given by hexadecimal digits.
pub fn bytes(alloc: Global, digits: &str) -> Result<String, Fail> {
    let text = hex::decode(alloc, digits)?;
    let mut out = String::new(alloc);
    match variables(alloc, text.as_slice()) {
        Ok(variables) => {
            for variable in &variables {
                out.push_str(in_digits(alloc, variable)?.as_str())?;
            }
            Ok(out)
        }
        Err(error) => error_text(alloc, error),
    }
}
