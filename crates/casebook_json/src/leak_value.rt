//! What cancelled lines showed, as JSON.
ghost use Rattle.std.specs.Prelude.{◌≡◌, IfOk, map};
ghost use Rattle.serde_json.specs.View.{view};
ghost use Rattle.casebook_json.specs.Leaked.{leak_data};

use crate::NoMem;
use crate::value::user_value;
use casebook_about::Labels;
use casebook_summary::Leak;
use serde_json::{Value, json};
use std::alloc::Global;

/// Returns the JSON value of a cancelled line that showed something.
#[tactic(auto, unfolding(crate::specs::Leaked::leak_data))]
fn leak_value(alloc: Global, labels: &Labels, leak: &Leak) -> Result<Value, NoMem>
    ensures { IfOk result (λ v. view v ≡ leak_data labels.now leak.now) }
{
    let user = user_value(alloc, labels, leak.session)?;
    json!(in alloc; {
        "bytes": leak.bytes,
        "line": leak.number,
        "session": leak.session,
        "user": user
    })
}

/// Returns the JSON values of cancelled lines that showed something, in order.
pub(crate) fn leak_values(
    alloc: Global,
    labels: &Labels,
    leaks: &[Leak],
) -> Result<Vec<Value>, NoMem>
    ensures { IfOk result (λ vs. map view vs.items ≡ map (leak_data labels.now) leaks.now) }
{
    let mut values = Vec::new(alloc);
    for leak in leaks {
        values.push(leak_value(alloc, labels, leak)?)?;
    }
    Ok(values)
}
