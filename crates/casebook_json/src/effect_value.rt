//! What cancelled and replaced lines led to, as JSON.
ghost use Rattle.std.specs.Prelude.{◌≡◌, IfOk, map};
ghost use Rattle.serde_json.specs.View.{view};
ghost use Rattle.casebook_summary.specs.Effects.{effect_value};
ghost use Rattle.casebook_json.specs.Causes.{effect_data};

use crate::NoMem;
use crate::value::path_values;
use casebook_summary::Effect;
use casebook_view::Fate;
use serde_json::{Value, json};
use std::alloc::Global;

/// Returns the JSON value of what a line led to.
#[tactic(auto, unfolding(crate::specs::Causes::effect_data))]
fn effect_value(alloc: Global, effect: &Effect) -> Result<Value, NoMem>
    ensures { IfOk result (λ v. view v ≡ effect_data (effect_value effect.now)) }
{
    let paths = path_values(alloc, effect.wrote.as_slice())?;
    let read = path_values(alloc, effect.read.as_slice())?;
    json!(in alloc; {
        "alike": effect.count(Fate::Alike),
        "changed": effect.count(Fate::Changed),
        "line": effect.number,
        "paths": paths,
        "read": read
    })
}

/// Returns the JSON values of what lines led to, in order.
pub(crate) fn effect_values(alloc: Global, effects: &[Effect]) -> Result<Vec<Value>, NoMem>
    ensures { IfOk result (λ vs. map view vs.items
        ≡ map (λ effect. effect_data (effect_value effect)) effects.now) }
{
    let mut values = Vec::new(alloc);
    for effect in effects {
        values.push(effect_value(alloc, effect)?)?;
    }
    Ok(values)
}
