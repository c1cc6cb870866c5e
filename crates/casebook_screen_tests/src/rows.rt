//! The call that each row names, and the tests that make these calls.
use crate::case_tables::{AGAIN, EDGES, FEW, KINDS, QUOTED};
use crate::given::{edits_of, labels_of, recording_of, repair_of, seen_of, source_of};
use crate::line_tables::{FORGED, LINES};
use crate::lines::lines;
use crate::market_table::MARKET;
use crate::seen_table::SEEN;
use crate::show::Shown;
use crate::source_table::SOURCES;
use crate::unknown_table::UNKNOWN;
use crate::unlike::unlike;
use casebook_summary::Summary;
use casebook_view::Case;
use retro_keep::{Edit, Recording};
use retro_redo::Repair;
use retro_rows::{fail, rows};
use std::alloc::Global;
use std::test::Fail;

/// What a row asks of a repair.
#[derive(Drop, Clone, Copy)]
struct Asked<'a> {
    call: &'a str,
    names: &'a str,
    times: &'a str,
    kind: &'a str,
    of: &'a str,
}

/// Returns the result of a call on what is shown, as text.
fn told(alloc: Global, shown: Shown<'_, '_>, call: &str, of: &str) -> Result<String, Fail> {
    match call {
        "show" => Ok(shown.part(alloc, of)?),
        "line" => shown.line(alloc, of),
        "document" => shown.at(alloc, of),
        _ => fail("no such call"),
    }
}

/// Returns what a summary answers.
fn of_summary(
    alloc: Global,
    case: &Case<'_>,
    summary: &Summary,
    asked: Asked<'_>,
) -> Result<String, Fail> {
    let labels = labels_of(alloc, asked.names, asked.times)?;
    let shown = Shown {
        case,
        summary,
        labels: &labels,
    };
    told(alloc, shown, asked.call, asked.of)
}

/// Returns what a case answers.
fn of_case(alloc: Global, case: &Case<'_>, asked: Asked<'_>) -> Result<String, Fail> {
    let summary = Summary::of(alloc, case, asked.kind == "recording")?;
    of_summary(alloc, case, &summary, asked)
}

/// Returns what the repair of a recording by edits answers.
fn of_repair<'r>(
    alloc: Global,
    recording: &'r Recording,
    edits: &'r [Edit],
    repair: &'r Repair,
    asked: Asked<'_>,
) -> Result<String, Fail> {
    let seen = seen_of(alloc, asked.kind)?;
    let case = Case::of(alloc, recording, repair, edits, source_of(&seen))?;
    of_case(alloc, &case, asked)
}

/// Returns what the repair of a log by the edits of a list answers.
fn repaired(alloc: Global, log: &str, list: &str, asked: Asked<'_>) -> Result<String, Fail> {
    let recording = recording_of(alloc, log)?;
    let edits = edits_of(alloc, list)?;
    let repair = repair_of(alloc, &recording, edits.as_slice())?;
    of_repair(alloc, &recording, edits.as_slice(), &repair, asked)
}

/// Returns what is shown of the lines of a log from one number to another.
fn listed(
    alloc: Global,
    call: &str,
    log: &str,
    (names, times): (&str, &str),
    (from, to, kind): (&str, &str, &str),
) -> Result<String, Fail> {
    let between = (from.parse()?, to.parse()?);
    let labels = labels_of(alloc, names, times)?;
    let recording = recording_of(alloc, log)?;
    let seen = seen_of(alloc, kind)?;
    let source = source_of(&seen);
    Ok(lines(alloc, (&recording, source), &labels, call, between)?)
}

/// Returns what is said of a log with a line changed.
fn forged(alloc: Global, log: &str, names: &str, forgery: &str) -> Result<String, Fail> {
    let labels = labels_of(alloc, names, "")?;
    unlike(alloc, &labels, recording_of(alloc, log)?, forgery)
}

/// Returns the result of a call for these fields, as text.
fn called(alloc: Global, call: &str, given: &[String]) -> Result<String, Fail> {
    match (call, given) {
        ("unlike", [log, names, forgery]) => forged(alloc, log, names, forgery),
        ("table" | "screen" | "numbers", [log, names, times, from, to]) => {
            listed(alloc, call, log, (names, times), (from, to, "recording"))
        }
        ("screen", [log, names, times, from, to, kind]) => {
            listed(alloc, call, log, (names, times), (from, to, kind))
        }
        (_, [log, edits, names, times, kind, of]) => {
            let asked = Asked {
                call,
                names,
                times,
                kind,
                of,
            };
            repaired(alloc, log, edits, asked)
        }
        _ => fail("no such call"),
    }
}

/// Makes the calls of a table. Fails with the first row whose call returns something else than it
/// wants.
fn hold(alloc: Global, table: &str) -> Result<(), Fail> {
    for row in &rows(alloc, table)? {
        let returned = called(alloc, &row.call, &row.given)?;
        row.compare(alloc, &returned)?;
    }
    Ok(())
}

#[test]
fn the_market_is_shown(rt: HostRuntime) -> Result<(), Fail> {
    hold(rt.alloc(), MARKET)
}

#[test]
fn other_logs_are_shown(rt: HostRuntime) -> Result<(), Fail> {
    for table in [
        EDGES, KINDS, UNKNOWN, SEEN, SOURCES, AGAIN, QUOTED, FEW, LINES, FORGED,
    ] {
        hold(rt.alloc(), table)?;
    }
    Ok(())
}
