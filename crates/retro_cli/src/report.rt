//! The report of a replay, as JSON.
ghost use Rattle.std.specs.Prelude.{◌≡◌, IfOk, map};
ghost use Rattle.serde_json.specs.View.{view};
ghost use Rattle.retro_cli.specs.Report.{output_data, replay_data, replay_text};

use retro_log::{hex_value, sessions_value, tree_value};
use retro_tree::{Bytes, NoMem, State};
use serde_json::{Value, json};
use std::alloc::Global;

/// Returns the JSON value of a line's output: `[number,"hex"]`.
pub(crate) fn output_value(alloc: Global, number: u32, output: &Bytes) -> Result<Value, NoMem>
    ensures { IfOk result (λ v. view v ≡ output_data (number, output.now)) }
{
    let output = hex_value(alloc, output.as_slice())?;
    json!(in alloc; [number, output])
}

/// Returns the JSON values of the outputs of lines, in order.
pub(crate) fn output_values(alloc: Global, outputs: &[(u32, Bytes)]) -> Result<Vec<Value>, NoMem>
    ensures { IfOk result (λ vs. map view vs.items ≡ map output_data outputs.now) }
{
    let mut values = Vec::new(alloc);
    for (number, output) in outputs {
        values.push(output_value(alloc, *number, output)?)?;
    }
    Ok(values)
}

/// Returns the JSON value of the report of a replay.
#[tactic(auto, unfolding(crate::specs::Report::replay_data))]
fn replay_value(alloc: Global, state: &State, outputs: &[(u32, Bytes)]) -> Result<Value, NoMem>
    ensures { IfOk result (λ v. view v ≡ replay_data outputs.now state.now) }
{
    let outputs = output_values(alloc, outputs)?;
    let sessions = sessions_value(alloc, state)?;
    let tree = tree_value(alloc, state)?;
    json!(in alloc; {"outputs": outputs, "sessions": sessions, "tree": tree})
}

/// Returns the report of a replay: compact JSON (RFC 8259) with these keys, in byte order, and a
/// newline.
///
/// - `outputs`: each line's number and output,
/// - `sessions` and `tree`: the last state.
pub(crate) fn replay_report(
    alloc: Global,
    state: &State,
    outputs: &[(u32, Bytes)],
) -> Result<Vec<u8>, NoMem>
    ensures { IfOk result (λ text. text.items ≡ replay_text outputs.now state.now) }
{
    let value = replay_value(alloc, state, outputs)?;
    let mut text = value.to_vec(alloc)?;
    text.push(b'\n')?;
    Ok(text)
}
