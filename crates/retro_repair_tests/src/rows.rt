//! The call that each row names, and the test that makes these calls.
use crate::edits::edits;
use crate::grounds::{guessed, lent, shown, stops_until};
use crate::recordings::{recording, recording_of_log};
use crate::rounds::{Ask, repaired_in_rounds, rounds};
use crate::steps::{steps, stops};
use crate::tables::{GROUNDS, IN_TURN, INCIDENTS, LATER, REPLACED, ROUNDS, STEPS};
use crate::telling::{compensations, end, fault_text, file, lines, outputs};
use crate::watch::Watch;
use retro_history::History;
use retro_keep::{Edit, Recording};
use retro_log::check;
use retro_redo::{Repair, RepairFault, Repairer, repair_alone, repair_watched};
use retro_rows::{Row, fail, path, rows, text};
use std::alloc::{AllocGlobal, Global};
use std::test::Fail;
use std::thread::Threads;

/// Repairs a recording with edited lines. Fails if the repair is refused.
fn repair_edited(alloc: Global, recording: &Recording, edits: &[Edit]) -> Result<Repair, Fail> {
    match repair_alone(alloc, recording, edits) {
        Ok(repair) => Ok(repair),
        Err(_) => fail("refused"),
    }
}

/// Repairs a recording with edited lines. Fails if `check` refuses the repair's own recording.
fn repaired(alloc: Global, recording: &Recording, list: &str) -> Result<Repair, Fail> {
    let repair = repair_edited(alloc, recording, &edits(alloc, list)?)?;
    if check(alloc, &repair.recording)? {
        Ok(repair)
    } else {
        fail("no recording")
    }
}

/// Returns the recording of a repair.
fn repaired_recording(alloc: Global, recording: &Recording, list: &str) -> Result<Recording, Fail> {
    Ok(repaired(alloc, recording, list)?.recording)
}

/// Returns which lines a repair executes, each with its turn, or its refusal.
fn executed(alloc: Global, recording: &Recording, list: &str) -> Result<String, Fail> {
    let edits = edits(alloc, list)?;
    let watch = Watch::new(alloc, 9)?;
    match repair_watched(alloc, recording, &edits, &watch) {
        Ok(_) => Ok(watch.executions(alloc)?),
        Err(fault) => Ok(fault_text(alloc, fault)?),
    }
}

/// Returns what the repair of a recording answers to a call.
fn told(
    alloc: Global,
    recording: &Recording,
    repair: &Repair,
    call: &str,
    given: &[String],
) -> Result<String, Fail> {
    match (call, given) {
        ("lines", []) => Ok(lines(alloc, repair)?),
        ("outputs", []) => outputs(alloc, repair),
        ("compensations", []) => compensations(alloc, recording, repair),
        ("begins", []) => Ok(format!(in alloc; "{}", repair.recording.from())?),
        ("file", [at]) => file(alloc, repair.state(), &path(alloc, at)?),
        ("end", [at]) => end(alloc, repair.state(), &path(alloc, at)?),
        _ => fail("no such call"),
    }
}

/// Returns the result of a call on a repair that has settled no line yet.
fn stepped(
    alloc: Global,
    repairer: &mut Repairer<'_, '_, '_>,
    call: &str,
    given: &[String],
) -> Result<String, Fail> {
    match (call, given) {
        ("steps", []) => steps(alloc, repairer),
        ("stops", []) => stops(alloc, repairer),
        ("lent", [from, at]) => lent(alloc, repairer, from.parse()?, at),
        ("shown", [from, number, at]) => {
            shown(alloc, repairer, from.parse()?, number.parse()?, at)
        }
        ("guessed", [from, number]) => guessed(alloc, repairer, from.parse()?, number.parse()?),
        ("stops until", [from, end]) => stops_until(alloc, repairer, from.parse()?, end.parse()?),
        _ => fail("no such call"),
    }
}

/// Returns the result of a call on a repair, or its refusal.
fn stepped_or_refused(
    alloc: Global,
    made: Result<Repairer<'_, '_, '_>, RepairFault>,
    call: &str,
    given: &[String],
) -> Result<String, Fail> {
    match made {
        Ok(mut repairer) => stepped(alloc, &mut repairer, call, given),
        Err(fault) => Ok(fault_text(alloc, fault)?),
    }
}

/// Returns the result of a call on the repair of a recording that is made step by step, or its
/// refusal.
fn by_steps(
    alloc: Global,
    recording: &Recording,
    call: &str,
    list: &str,
    given: &[String],
) -> Result<String, Fail> {
    let history = History::of(alloc, recording)?;
    let edits = edits(alloc, list)?;
    stepped_or_refused(
        alloc,
        Repairer::new(alloc, recording, &history, &edits),
        call,
        given,
    )
}

/// Fails if a repair in rounds answers something else to a call.
fn same_in_rounds<T: Threads + Sync + AllocGlobal>(
    rt: &T,
    recording: &Recording,
    ask: &Ask<'_>,
    (call, given): (&str, &[String]),
    wanted: &str,
) -> Result<(), Fail> {
    let repair = repaired_in_rounds(rt, recording, ask)?;
    if told(rt.alloc(), recording, &repair, call, given)?.as_str() == wanted {
        Ok(())
    } else {
        fail("another answer in rounds")
    }
}

/// Returns what a repair on one thread answers to a call. Fails if repairs in rounds answer
/// something else, with some numbers of workers and some cuts.
fn told_in_every_way<T: Threads + Sync + AllocGlobal>(
    rt: &T,
    recording: &Recording,
    call: &str,
    list: &str,
    given: &[String],
) -> Result<String, Fail> {
    let alloc = rt.alloc();
    let repair = repaired(alloc, recording, list)?;
    let wanted = told(alloc, recording, &repair, call, given)?;
    for (workers, cuts) in [("0", "1"), ("1", "2"), ("16", "64"), ("3", "1 4")] {
        let ask = Ask {
            edits: list,
            workers,
            cuts,
        };
        same_in_rounds(rt, recording, &ask, (call, given), &wanted)?;
    }
    Ok(wanted)
}

/// Returns `yes` if repairs in rounds with each of the numbers of workers and each of the cuts
/// answer what the repair on one thread does.
fn alike<T: Threads + Sync + AllocGlobal>(
    rt: &T,
    recording: &Recording,
    list: &str,
) -> Result<String, Fail> {
    let alloc = rt.alloc();
    let alone = repaired(alloc, recording, list)?;
    for call in ["lines", "outputs", "compensations"] {
        let wanted = told(alloc, recording, &alone, call, &[])?;
        for workers in ["0", "1", "3", "16"] {
            for cuts in ["1", "2", "64", "1 4"] {
                let ask = Ask {
                    edits: list,
                    workers,
                    cuts,
                };
                same_in_rounds(rt, recording, &ask, (call, &[]), &wanted)?;
            }
        }
    }
    Ok(text(alloc, "yes")?)
}

/// Returns the result of a call on the repair of a recording with edited lines.
fn called<T: Threads + Sync + AllocGlobal>(
    rt: &T,
    recording: &Recording,
    call: &str,
    list: &str,
    given: &[String],
) -> Result<String, Fail> {
    match (call, given) {
        ("executed", []) => executed(rt.alloc(), recording, list),
        ("alike", []) => alike(rt, recording, list),
        ("rounds", [workers, cuts]) => {
            let ask = Ask {
                edits: list,
                workers,
                cuts,
            };
            rounds(rt, recording, &ask)
        }
        ("steps" | "stops" | "lent" | "shown" | "guessed" | "stops until", _) => {
            by_steps(rt.alloc(), recording, call, list, given)
        }
        _ => told_in_every_way(rt, recording, call, list, given),
    }
}

/// Returns the result of a call on the repair of a recording. If the list has two parts with `then`
/// between them, the recording of the first part's repair is repaired by the second part.
fn called_in_turn<T: Threads + Sync + AllocGlobal>(
    rt: &T,
    recording: &Recording,
    call: &str,
    lists: &str,
    given: &[String],
) -> Result<String, Fail> {
    let Some((first, second)) = lists.split_once(" then ") else {
        return called(rt, recording, call, lists, given);
    };
    let once = repaired_recording(rt.alloc(), recording, first)?;
    called(rt, &once, call, second, given)
}

/// Returns the recording of a row, and what the row has after it.
fn recorded(alloc: Global, row: &Row) -> Result<(Recording, &[String]), Fail> {
    match row.given.as_slice() {
        [log, rest @ ..] if log.starts_with('{') => Ok((recording_of_log(alloc, log)?, rest)),
        [entries, lines, rest @ ..] => Ok((recording(alloc, entries, lines)?, rest)),
        _ => fail("no lines"),
    }
}

/// Returns the result of a row's call.
fn returned<T: Threads + Sync + AllocGlobal>(rt: &T, row: &Row) -> Result<String, Fail> {
    let (recording, rest) = recorded(rt.alloc(), row)?;
    let [lists, given @ ..] = rest else {
        return fail("no edits");
    };
    called_in_turn(rt, &recording, &row.call, lists, given)
}

/// Makes the calls of a table. Fails with the first row whose call returns something else than it
/// wants.
fn hold<T: Threads + Sync + AllocGlobal>(rt: &T, table: &str) -> Result<(), Fail> {
    for row in &rows(rt.alloc(), table)? {
        let returned = returned(rt, row)?;
        row.compare(rt.alloc(), &returned)?;
    }
    Ok(())
}

#[test]
fn repairs_are_as_worked_out(rt: HostRuntime) -> Result<(), Fail> {
    for table in [INCIDENTS, IN_TURN, STEPS, GROUNDS, ROUNDS] {
        hold(&rt, table)?;
    }
    Ok(())
}

#[test]
fn replaced_lines_are_as_worked_out(rt: HostRuntime) -> Result<(), Fail> {
    hold(&rt, REPLACED)
}

#[test]
fn later_recordings_are_as_worked_out(rt: HostRuntime) -> Result<(), Fail> {
    hold(&rt, LATER)
}
