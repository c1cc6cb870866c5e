//! Lines that aren't understood or have to be run for real, as JSON.
ghost use Rattle.std.specs.Prelude.{◌≡◌, IfOk, map};
ghost use Rattle.serde_json.specs.View.{view};
ghost use Rattle.casebook_json.specs.Unknown.{obstacle_name, unknown_data};

use crate::NoMem;
use casebook_view::{Obstacle, UnknownLine};
use serde_json::{Value, json};
use std::alloc::Global;

/// Returns the name of an obstacle.
fn obstacle_name(obstacle: Obstacle) -> &'static str
    ensures { result.now ≡ obstacle_name obstacle }
{
    match obstacle {
        Obstacle::Command => "command",
        Obstacle::Form => "form",
        Obstacle::Expansion => "expansion",
        Obstacle::Terminal => "terminal",
        Obstacle::Observed => "observed",
        Obstacle::Need => "need",
    }
}

/// Returns the JSON value of a line, with its obstacle.
fn unknown_value(alloc: Global, line: &UnknownLine) -> Result<Value, NoMem>
    ensures { IfOk result (λ v. view v ≡ unknown_data line.now) }
{
    let name = obstacle_name(line.obstacle);
    json!(in alloc; [line.number, name])
}

/// Returns the JSON values of lines, in order, with their obstacles.
pub(crate) fn unknown_values(alloc: Global, unknown: &[UnknownLine]) -> Result<Vec<Value>, NoMem>
    ensures { IfOk result (λ vs. map view vs.items ≡ map unknown_data unknown.now) }
{
    let mut values = Vec::new(alloc);
    for line in unknown {
        values.push(unknown_value(alloc, line)?)?;
    }
    Ok(values)
}
