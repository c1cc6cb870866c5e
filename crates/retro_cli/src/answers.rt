//! Answers to requests. In each function `input` is the document that the program read.
ghost use Rattle.std.specs.Prelude.{◌≡◌, None, Ok, IfOk, IfErr, OnOk};
ghost use Rattle.retro_cli.specs.Exit.{exit_of};
ghost use Rattle.retro_cli.specs.Program.{Answered, IsLogOf, IsRepairReport, IsRepairedLog};
ghost use Rattle.retro_cli.specs.Program.{IsTrimmedLog, IsVerdict, document_refusal, repair_refusal};
ghost use Rattle.retro_cli.specs.Program.{replay_answer, request_refusal, trim_answer};
ghost use Rattle.retro_cli.specs.inner.Repaired.{IsAcceptedRepair};
ghost use Rattle.retro_cli.specs.inner.Stop.{Refuses, ReturnsAs};
ghost use Rattle.retro_cli.specs.Words.{options_view, request_view};
ghost use Rattle.retro_log.specs.Document.{log_in, script_in};

use crate::ending::Ending;
use crate::repair_options::RepairOptions;
use crate::repair_report::repair_report;
use crate::report::replay_report;
use crate::stop::Stop;
use crate::words::Request;
use retro_keep::{Edit, Recording, check, keep, replay};
use retro_log::{read_log, read_script, write_log};
use retro_redo::{Quiet, Repair};
use retro_rounds::repair;
use std::alloc::{AllocGlobal, Global};
use std::thread::Threads;

/// Returns the report of running the edited lines of a script.
#[tactic(auto, unfolding(crate::specs::Program::replay_answer))]
fn replay_input(alloc: Global, edits: &[Edit], input: Vec<u8>) -> Result<Vec<u8>, Stop>
    ensures { ReturnsAs (λ text. text.items) result (replay_answer edits.now input.items) }
{
    let script = read_script(alloc, &input)?.edit(alloc, edits)?;
    drop(input);
    let (state, outputs) = replay(alloc, script)?;
    Ok(replay_report(alloc, &state, &outputs)?)
}

/// Returns the log of a recording of a script.
fn record_input<T: Threads + Sync + AllocGlobal>(rt: &T, input: Vec<u8>) -> Result<Vec<u8>, Stop>
    ensures ok { IfOk result (λ text. IsLogOf input.items text.items) }
    ensures err { IfErr result (λ stop. Refuses stop (document_refusal (script_in input.items))) }
{
    let script = read_script(rt.alloc(), &input)?;
    drop(input);
    let recording = keep(rt, rt.alloc(), &script)?;
    Ok(write_log(rt.alloc(), &recording)?)
}

/// Returns `yes` if a log is a recording of its own lines, and `no` otherwise, each followed by a
/// newline. The ending says the same.
fn check_input(alloc: Global, input: Vec<u8>) -> Result<(Vec<u8>, Ending), Stop>
    ensures ok { IfOk result (λ answer.
        IsVerdict input.items (exit_of (Ok answer.1)) answer.0.items) }
    ensures err { IfErr result (λ stop. Refuses stop (document_refusal (log_in input.items))) }
{
    let recording = read_log(alloc, &input)?;
    drop(input);
    if check(alloc, &recording)? {
        Ok((Vec::from_slice(alloc, b"yes\n")?, Ending::Done))
    } else {
        Ok((Vec::from_slice(alloc, b"no\n")?, Ending::CheckNo))
    }
}

/// Returns the recording of a log, and its repair.
fn repair_log<T: Threads + Sync + AllocGlobal>(
    rt: &T,
    options: &RepairOptions,
    input: Vec<u8>,
) -> Result<(Recording, Repair), Stop>
    ensures ok { IfOk result (λ both.
        (is : IsAcceptedRepair (options_view options.now) input.items both.1)
        × (is.is_repair.recording ≡ both.0)) }
    ensures err { IfErr result (λ stop.
        Refuses stop (repair_refusal (options_view options.now) (log_in input.items))) }
{
    let recording = read_log(rt.alloc(), &input)?;
    drop(input);
    let repair = repair(
        rt,
        rt.alloc(),
        &recording,
        &options.edits,
        options.workers,
        &options.cuts,
        &Quiet,
    )?;
    Ok((recording, repair))
}

/// Returns the report of a repair of a log.
#[tactic(auto, using(crate::proofs::RefusalLemmas::accepted_is_not_refused))]
fn repair_input<T: Threads + Sync + AllocGlobal>(
    rt: &T,
    options: &RepairOptions,
    input: Vec<u8>,
) -> Result<Vec<u8>, Stop>
    ensures ok { IfOk result (λ text.
        IsRepairReport options.now.edits.items input.items text.items) }
    ensures accepted { OnOk result
        (repair_refusal (options_view options.now) (log_in input.items) ≡ None) }
    ensures err { IfErr result (λ stop.
        Refuses stop (repair_refusal (options_view options.now) (log_in input.items))) }
{
    let (recording, repair) = repair_log(rt, options, input)?;
    Ok(repair_report(rt.alloc(), recording, &repair)?)
}

/// Returns the log of the repaired recording of a log.
#[tactic(auto, using(crate::proofs::RefusalLemmas::accepted_is_not_refused))]
fn relog_input<T: Threads + Sync + AllocGlobal>(
    rt: &T,
    options: &RepairOptions,
    input: Vec<u8>,
) -> Result<Vec<u8>, Stop>
    ensures ok { IfOk result (λ text.
        IsRepairedLog options.now.edits.items input.items text.items) }
    ensures accepted { OnOk result
        (repair_refusal (options_view options.now) (log_in input.items) ≡ None) }
    ensures err { IfErr result (λ stop.
        Refuses stop (repair_refusal (options_view options.now) (log_in input.items))) }
{
    let (recording, repair) = repair_log(rt, options, input)?;
    drop(recording);
    Ok(write_log(rt.alloc(), &repair.recording)?)
}

/// Returns the log of the lines from a number on, over the recorded state before them.
#[tactic(auto, using(crate::proofs::TrimLemmas::trim_gives), unfolding(crate::specs::Program::trim_answer))]
fn trim_input(alloc: Global, number: u32, input: Vec<u8>) -> Result<Vec<u8>, Stop>
    ensures answer { ReturnsAs (λ text. text.items) result (trim_answer number input.items) }
    ensures again { IfOk result (λ text. IsTrimmedLog number input.items text.items) }
{
    let recording = read_log(alloc, &input)?;
    drop(input);
    let trimmed = recording.trim(alloc, number)?;
    Ok(write_log(alloc, &trimmed)?)
}

/// Returns the text that answers a request, and how the program ends once the text is written.
pub(crate) fn answer<T: Threads + Sync + AllocGlobal>(
    rt: &T,
    request: &Request,
    input: Vec<u8>,
) -> Result<(Vec<u8>, Ending), Stop>
    ensures ok { IfOk result (λ answer.
        Answered (request_view request.now) input.items (exit_of (Ok answer.1)) answer.0.items) }
    ensures accepted { OnOk result
        (request_refusal (request_view request.now) input.items ≡ None) }
    ensures err { IfErr result (λ stop.
        Refuses stop (request_refusal (request_view request.now) input.items)) }
{
    match request {
        Request::Replay { edits } => Ok((replay_input(rt.alloc(), edits, input)?, Ending::Done)),
        Request::Record => Ok((record_input(rt, input)?, Ending::Done)),
        Request::Check => Ok(check_input(rt.alloc(), input)?),
        Request::Repair(options) => Ok((repair_input(rt, options, input)?, Ending::Done)),
        Request::Relog(options) => Ok((relog_input(rt, options, input)?, Ending::Done)),
        Request::Trim { at } => Ok((trim_input(rt.alloc(), *at, input)?, Ending::Done)),
    }
}
