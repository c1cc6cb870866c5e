//! What becomes of each line, and why, as JSON.
ghost use Rattle.std.specs.Prelude.{◌≡◌, IfOk, map};
ghost use Rattle.serde_json.specs.View.{view};
ghost use Rattle.casebook_view.specs.Reasons.{cause_in};
ghost use Rattle.casebook_json.specs.Lines.{failing_in, fate_name, line_data, origin_in};
ghost use Rattle.casebook_json.specs.Lines.{why_name, why_or_null};

use crate::NoMem;
use crate::value::number_or_null;
use casebook_view::{CaseLine, Fate, Reason, Why};
use serde_json::{Value, json};
use std::alloc::Global;

/// Returns the name of a fate.
fn fate_name(fate: Fate) -> &'static str
    ensures { result.now ≡ fate_name fate }
{
    match fate {
        Fate::Cancelled => "cancelled",
        Fate::Changed => "changed",
        Fate::Alike => "alike",
        Fate::Kept => "kept",
        Fate::Untouched => "untouched",
    }
}

/// Returns the cause of a line that is run again, if it has one.
fn cause_in(reason: Option<Reason>) -> Option<u64>
    ensures { result ≡ cause_in reason }
{
    match reason {
        Some(reason) => reason.cause.map(u64::from),
        None => None,
    }
}

/// Returns the index of the note of a line that fails, if one does.
fn failing_in(reason: Option<Reason>) -> Option<u64>
    ensures { result ≡ failing_in reason }
{
    match reason {
        Some(reason) => reason.why.failing().map(|index| index as u64),
        None => None,
    }
}

/// Returns the line at which the chain of causes of a line ends, if the line is run again.
fn origin_in(reason: Option<Reason>) -> Option<u64>
    ensures { result ≡ origin_in reason }
{
    match reason {
        Some(reason) => Some(u64::from(reason.origin)),
        None => None,
    }
}

/// Returns the name of why a line is run again.
fn why_name(why: Why) -> &'static str
    ensures { result.now ≡ why_name why }
{
    match why {
        Why::Replaced => "replaced",
        Why::Query(_) => "query",
        Why::RunAgain => "again",
    }
}

/// Returns the name of why a line is run again as a JSON string, or null if it isn't.
fn why_or_null(alloc: Global, reason: Option<Reason>) -> Result<Value, NoMem>
    ensures { IfOk result (λ v. view v ≡ why_or_null reason) }
{
    match reason {
        Some(reason) => Value::try_from_str(alloc, why_name(reason.why)),
        None => Ok(Value::Null),
    }
}

/// Returns the JSON value of a line.
#[tactic(auto, unfolding(crate::specs::Lines::line_data))]
fn line_value(alloc: Global, line: &CaseLine) -> Result<Value, NoMem>
    ensures { IfOk result (λ v. view v ≡ line_data line.now) }
{
    let reason = line.reason;
    let why = why_or_null(alloc, reason)?;
    json!(in alloc; {
        "because_of": number_or_null(cause_in(reason)),
        "fate": fate_name(line.fate),
        "line": line.number,
        "note": number_or_null(failing_in(reason)),
        "origin": number_or_null(origin_in(reason)),
        "session": line.session,
        "why": why
    })
}

/// Returns the JSON values of lines, in order.
pub(crate) fn line_values(alloc: Global, lines: &[CaseLine]) -> Result<Vec<Value>, NoMem>
    ensures { IfOk result (λ vs. map view vs.items ≡ map line_data lines.now) }
{
    let mut values = Vec::new(alloc);
    for line in lines {
        values.push(line_value(alloc, line)?)?;
    }
    Ok(values)
}
