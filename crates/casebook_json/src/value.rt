//! JSON values of paths, texts, users and numbers.
ghost use Rattle.std.specs.Prelude.{◌≡◌, IfOk, map};
ghost use Rattle.serde_json.specs.Data.{string};
ghost use Rattle.serde_json.specs.View.{view};
ghost use Rattle.retro_json.specs.Values.{number_data};
ghost use Rattle.casebook_json.specs.Values.{number_or_null, path_data, user_data};

use crate::NoMem;
use casebook_about::Labels;
use retro_tree::{Path, Text};
use serde_json::Value;
use std::alloc::Global;

/// Returns the JSON value of a path: its text.
pub(crate) fn path_value(alloc: Global, path: &Path) -> Result<Value, NoMem>
    ensures { IfOk result (λ v. view v ≡ path_data path.now) }
{
    if path.is_root() {
        return Value::try_from_str(alloc, "/");
    }
    Value::try_from_str(alloc, path.as_str())
}

/// Returns the JSON values of paths, in order.
pub(crate) fn path_values(alloc: Global, paths: &[Path]) -> Result<Vec<Value>, NoMem>
    ensures { IfOk result (λ vs. map view vs.items ≡ map path_data paths.now) }
{
    let mut values = Vec::new(alloc);
    for path in paths {
        values.push(path_value(alloc, path)?)?;
    }
    Ok(values)
}

/// Returns the JSON values of texts, in order.
pub(crate) fn text_values(alloc: Global, texts: &[Text]) -> Result<Vec<Value>, NoMem>
    ensures { IfOk result (λ vs. map view vs.items ≡ map string texts.now) }
{
    let mut values = Vec::with_capacity(alloc, texts.len())?;
    for text in texts {
        values.push(Value::try_from_str(alloc, text.as_str())?)?;
    }
    Ok(values)
}

/// Returns the name of a session as a JSON string, as it was given, or null if it has none.
pub(crate) fn user_value(alloc: Global, labels: &Labels, session: u32) -> Result<Value, NoMem>
    ensures { IfOk result (λ v. view v ≡ user_data labels.now session) }
{
    match labels.name_in(session) {
        Some(name) => Value::try_from_str(alloc, name.as_str()),
        None => Ok(Value::Null),
    }
}

/// Returns the JSON values of numbers, in order.
pub(crate) fn number_values(alloc: Global, numbers: &[u32]) -> Result<Vec<Value>, NoMem>
    ensures { IfOk result (λ vs. map view vs.items ≡ map number_data numbers.now) }
{
    let mut values = Vec::new(alloc);
    for number in numbers {
        values.push(Value::from(*number))?;
    }
    Ok(values)
}

/// Returns the JSON value of a number, or null if there is none.
pub(crate) fn number_or_null(number: Option<u64>) -> Value
    ensures { view result ≡ number_or_null number }
{
    match number {
        Some(number) => Value::from(number),
        None => Value::Null,
    }
}
