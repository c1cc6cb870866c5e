//! The call that each row names, and the test that makes these calls.
use crate::answers::answers;
use crate::causes::{compensated, met};
use crate::given::{edits_of, observed_of, recording_of, repair_of, seen_source};
use crate::listed::listed;
use crate::parts::part;
use crate::tables::{INCIDENTS, LISTED, SEEN, SHOWN, TREES};
use crate::trees::changed;
use crate::words::fate_sign;
use casebook_summary::Summary;
use casebook_view::{Case, Source};
use retro_keep::{Edit, Recording};
use retro_redo::Repair;
use retro_rows::{fail, rows, text};
use std::alloc::Global;
use std::test::Fail;

/// Returns the sign of a line's fate, or `none` if there is no such line.
fn fate(summary: &Summary, number: u32) -> &'static str {
    match summary.lines.at(number) {
        Some(line) => fate_sign(line.fate),
        None => "none",
    }
}

/// Returns the result of a call on a summary, as text.
fn of_summary(
    alloc: Global,
    case: &Case<'_>,
    summary: &Summary,
    call: &str,
    of: &str,
) -> Result<String, Fail> {
    match call {
        "show" => Ok(part(alloc, summary, of)?),
        "fate" => Ok(text(alloc, fate(summary, of.parse()?))?),
        "answers" => answers(alloc, case, summary, of.parse()?),
        _ => fail("no such call"),
    }
}

/// Returns the result of a call on a case, as text.
fn of_case(alloc: Global, case: &Case<'_>, call: &str, of: &str) -> Result<String, Fail> {
    let summary = Summary::of(alloc, case, true)?;
    of_summary(alloc, case, &summary, call, of)
}

/// Returns the result of a call on a repair, as text.
fn of_repair<'r>(
    alloc: Global,
    recording: &'r Recording,
    repair: &'r Repair,
    edits: &'r [Edit],
    call: &str,
    of: &str,
) -> Result<String, Fail> {
    match call {
        "compensated" => Ok(compensated(alloc, recording, repair, of)?),
        "met" => Ok(met(alloc, recording, &repair.recording, of.parse()?)?),
        _ => {
            let case = Case::of(alloc, recording, repair, edits, Source::Played)?;
            of_case(alloc, &case, call, of)
        }
    }
}

/// Returns the result of a call on the repair of a recording by edits, as text.
fn repaired(
    alloc: Global,
    recording: &Recording,
    list: &str,
    call: &str,
    of: &str,
) -> Result<String, Fail> {
    let edits = edits_of(alloc, list)?;
    let repair = repair_of(alloc, recording, edits.as_slice())?;
    of_repair(alloc, recording, &repair, edits.as_slice(), call, of)
}

/// Returns the result of a call on the repair by edits of a recording of which a recorder observed
/// the lines of a list, as text.
fn seen(
    alloc: Global,
    recording: &Recording,
    (list, observed): (&str, &str),
    call: &str,
    of: &str,
) -> Result<String, Fail> {
    let edits = edits_of(alloc, list)?;
    let repair = repair_of(alloc, recording, edits.as_slice())?;
    let observed = observed_of(alloc, observed)?;
    let source = seen_source(observed.as_slice());
    let case = Case::of(alloc, recording, &repair, edits.as_slice(), source)?;
    of_case(alloc, &case, call, of)
}

/// Returns the result of a call on a recording, as text.
fn of_recording(
    alloc: Global,
    recording: &Recording,
    call: &str,
    given: &[String],
) -> Result<String, Fail> {
    match (call, given) {
        ("lines" | "rows" | "obstacles", filters) => listed(alloc, recording, call, filters),
        (_, [edits, of]) => repaired(alloc, recording, edits, call, of),
        (_, [edits, observed, of]) => seen(alloc, recording, (edits, observed), call, of),
        _ => fail("no such call"),
    }
}

/// Returns the result of a call for these fields, as text.
fn called(alloc: Global, call: &str, given: &[String]) -> Result<String, Fail> {
    match (call, given) {
        ("changed", [before, after]) => changed(alloc, before, after),
        (_, [log, rest @ ..]) => {
            let recording = recording_of(alloc, log)?;
            of_recording(alloc, &recording, call, rest)
        }
        _ => fail("no such call"),
    }
}

/// Makes the calls of a table. Fails with the first row whose call returns something else than it
/// wants.
fn hold(alloc: Global, table: &str) -> Result<(), Fail> {
    for row in &rows(alloc, table)? {
        let returned = called(alloc, &row.call, &row.given)?;
        row.compare(alloc, &returned)?;
    }
    Ok(())
}

#[test]
fn rows_hold(rt: HostRuntime) -> Result<(), Fail> {
    for table in [LISTED, SHOWN, SEEN, INCIDENTS, TREES] {
        hold(rt.alloc(), table)?;
    }
    Ok(())
}
