//! Whom to tell about what, as JSON.
ghost use Rattle.std.specs.Prelude.{◌≡◌, IfOk, map};
ghost use Rattle.serde_json.specs.View.{view};
ghost use Rattle.casebook_summary.specs.Groups.{group_value};
ghost use Rattle.casebook_json.specs.Tell.{group_data, subject_name, subject_path};
ghost use Rattle.casebook_json.specs.Tell.{subject_variable};

use crate::NoMem;
use crate::value::{number_values, path_value, user_value};
use casebook_about::Labels;
use casebook_summary::{Group, Subject};
use serde_json::{Value, json};
use std::alloc::Global;

/// Returns the name of a kind of subject.
fn subject_name(subject: &Subject) -> &'static str
    ensures { result.now ≡ subject_name subject.now }
{
    match subject {
        Subject::At(_) => "path",
        Subject::Directory => "directory",
        Subject::Variable(_) => "variable",
        Subject::Status => "status",
        Subject::Text => "text",
        Subject::Again => "again",
    }
}

/// Returns the path of a subject as a JSON string, or null if it has none.
fn subject_path(alloc: Global, subject: &Subject) -> Result<Value, NoMem>
    ensures { IfOk result (λ v. view v ≡ subject_path subject.now) }
{
    match subject {
        Subject::At(path) => path_value(alloc, path),
        _ => Ok(Value::Null),
    }
}

/// Returns the name of a subject's variable as a JSON string, or null if it has none.
fn subject_variable(alloc: Global, subject: &Subject) -> Result<Value, NoMem>
    ensures { IfOk result (λ v. view v ≡ subject_variable subject.now) }
{
    match subject {
        Subject::Variable(name) => Value::try_from_str(alloc, name.as_str()),
        _ => Ok(Value::Null),
    }
}

/// Returns the JSON value of what one session is told about one subject.
#[tactic(auto, unfolding(crate::specs::Tell::group_data))]
fn group_value(alloc: Global, labels: &Labels, group: &Group) -> Result<Value, NoMem>
    ensures { IfOk result (λ v. view v ≡ group_data labels.now (group_value group.now)) }
{
    let lines = number_values(alloc, group.lines.as_slice())?;
    let path = subject_path(alloc, &group.subject)?;
    let user = user_value(alloc, labels, group.session)?;
    let variable = subject_variable(alloc, &group.subject)?;
    json!(in alloc; {
        "about": subject_name(&group.subject),
        "lines": lines,
        "path": path,
        "session": group.session,
        "user": user,
        "variable": variable
    })
}

/// Returns the JSON values of whom to tell about what, in order.
pub(crate) fn group_values(
    alloc: Global,
    labels: &Labels,
    groups: &[Group],
) -> Result<Vec<Value>, NoMem>
    ensures { IfOk result (λ vs. map view vs.items
        ≡ map (λ group. group_data labels.now (group_value group)) groups.now) }
{
    let mut values = Vec::new(alloc);
    for group in groups {
        values.push(group_value(alloc, labels, group)?)?;
    }
    Ok(values)
}
