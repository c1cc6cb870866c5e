//! The report of a repair, as JSON.
ghost use Rattle.std.specs.Prelude.{◌≡◌, IfOk, map};
ghost use Rattle.serde_json.specs.View.{view};
ghost use Rattle.retro_keep.specs.Recording.{output_in};
ghost use Rattle.retro_json.specs.Values.{number_data};
ghost use Rattle.retro_redo.specs.Moments.{compensation_view};
ghost use Rattle.retro_redo.specs.Repair.{compensations_in, met_numbers, numbers_with};
ghost use Rattle.retro_cli.specs.Report.{output_data};
ghost use Rattle.retro_cli.specs.RepairReport.{compensation_data, repair_data, repair_text};

use crate::report::output_value;
use retro_keep::{Noted, Recording};
use retro_log::{hex_value, sessions_value, tree_value};
use retro_redo::{Compensation, Repair, Verdict};
use retro_tree::NoMem;
use serde_json::{Value, json};
use std::alloc::Global;

/// Returns the JSON values of numbers.
fn number_values(alloc: Global, numbers: &[u32]) -> Result<Vec<Value>, NoMem>
    ensures { IfOk result (λ vs. map view vs.items ≡ map number_data numbers.now) }
{
    let mut values = Vec::new(alloc);
    for number in numbers {
        values.push(Value::from(*number))?;
    }
    Ok(values)
}

/// Returns the JSON values of the numbers of the lines that have a verdict, in order.
fn verdict_values(alloc: Global, repair: &Repair, verdict: Verdict) -> Result<Vec<Value>, NoMem>
    ensures { IfOk result (λ vs.
        map view vs.items ≡ map number_data (numbers_with verdict repair.now.lines.items)) }
{
    let numbers = repair.lines_with(alloc, verdict)?;
    number_values(alloc, &numbers)
}

/// Returns the JSON values of the numbers of the met lines, in order.
fn met_values(alloc: Global, repair: &Repair) -> Result<Vec<Value>, NoMem>
    ensures { IfOk result (λ vs.
        map view vs.items ≡ map number_data (met_numbers repair.now.lines.items)) }
{
    let numbers = repair.met_lines(alloc)?;
    number_values(alloc, &numbers)
}

/// Returns the JSON value of a compensation: the line's number, what it printed, and what it
/// prints in the repaired run, `[number,"hex","hex"]`.
fn compensation_value(alloc: Global, compensation: &Compensation<'_>) -> Result<Value, NoMem>
    ensures { IfOk result (λ v.
        view v ≡ compensation_data (compensation_view compensation.entry.now)) }
{
    let before = hex_value(alloc, compensation.before)?;
    let now = hex_value(alloc, compensation.now)?;
    json!(in alloc; [compensation.number, before, now])
}

/// Returns the JSON values of the compensations of the repair of a recording, in order.
fn compensation_values(
    alloc: Global,
    recorded: &Recording,
    repair: &Repair,
) -> Result<Vec<Value>, NoMem>
    ensures { IfOk result (λ vs.
        map view vs.items ≡ map compensation_data (compensations_in recorded.now repair.now)) }
{
    let compensations = repair.compensations(alloc, recorded)?;
    let mut values = Vec::new(alloc);
    for compensation in &compensations {
        values.push(compensation_value(alloc, compensation)?)?;
    }
    Ok(values)
}

/// Returns the JSON values of what lines printed, in order.
fn printed_values(alloc: Global, lines: &[(u32, Noted)]) -> Result<Vec<Value>, NoMem>
    ensures { IfOk result (λ vs.
        map view vs.items ≡ map output_data (map output_in lines.now)) }
{
    let mut values = Vec::new(alloc);
    for (number, noted) in lines {
        values.push(output_value(alloc, *number, &noted.output)?)?;
    }
    Ok(values)
}

/// Returns the JSON value of the report of the repair of a recording, which is freed as soon as it
/// isn't needed.
#[tactic(auto, unfolding(crate::specs::RepairReport::repair_data))]
fn repair_value(alloc: Global, recorded: Recording, repair: &Repair) -> Result<Value, NoMem>
    ensures { IfOk result (λ v. view v ≡ repair_data recorded repair.now) }
{
    let compensations = compensation_values(alloc, &recorded, repair)?;
    drop(recorded);
    json!(in alloc; {
        "cancelled": verdict_values(alloc, repair, Verdict::Cancelled)?,
        "compensations": compensations,
        "met": met_values(alloc, repair)?,
        "outputs": printed_values(alloc, repair.recording.lines())?,
        "redone": verdict_values(alloc, repair, Verdict::Redone)?,
        "sessions": sessions_value(alloc, repair.state())?,
        "tree": tree_value(alloc, repair.state())?
    })
}

/// Returns the report of the repair of a recording: compact JSON (RFC 8259) with these keys, in
/// byte order, and a newline.
///
/// - `cancelled`: the numbers of the cancelled lines,
/// - `compensations`: each line whose output differs, with what it printed and what it prints now,
/// - `met`: the numbers of the lines that were met,
/// - `outputs`: the number and the output of each line that isn't cancelled,
/// - `redone`: the numbers of the lines that were run again,
/// - `sessions` and `tree`: the state after the repair.
pub(crate) fn repair_report(
    alloc: Global,
    recorded: Recording,
    repair: &Repair,
) -> Result<Vec<u8>, NoMem>
    ensures { IfOk result (λ text. text.items ≡ repair_text recorded repair.now) }
{
    let value = repair_value(alloc, recorded, repair)?;
    let mut text = value.to_vec(alloc)?;
    text.push(b'\n')?;
    Ok(text)
}
