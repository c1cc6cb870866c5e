//! Bytes of repairs.
ghost use Rattle.std.specs.Prelude.{IfErr, IfOk, ◌≡◌};
ghost use Rattle.std.specs.Option.{option_copied};
ghost use Rattle.casebook_request.specs.Views.{cat_view};
ghost use Rattle.casebook_repairs.specs.Views.{inputs_view};
ghost use Rattle.casebook_cli.specs.Answers.{Says};
ghost use Rattle.casebook_cli.specs.Bytes.{IsBytes, IsBytesOf, IsKeptFile, IsPrinted};
ghost use Rattle.casebook_cli.specs.Bytes.{StopsBytes, StopsBytesOf, StopsFile, StopsOutput};
ghost use Rattle.casebook_cli.specs.Bytes.{is_observed};
ghost use Rattle.casebook_cli.specs.inner.Views.{answer_view};

use crate::answer::Answer;
use casebook_opaque::is_opaque;
use casebook_repairs::{AskedRepair, Check, Inputs, Progress, Stop, asked_repair, source_by};
use casebook_request::{BytesOf, CatRequest};
use casebook_view::Source;
use retro_tree::Entry;
use std::alloc::AllocGlobal;
use std::thread::Threads;

/// Returns the bytes of what there is at a path, if it is a file that is kept.
fn file_bytes<'t, 'a>(entry: Option<&'t Entry>) -> Result<&'t [u8], Stop<'a>>
    ensures ok { IfOk result (λ bytes. IsKeptFile (option_copied entry.entry) bytes.now) }
    ensures err { IfErr result (StopsFile (option_copied entry.entry)) }
{
    match entry {
        None => Err(Stop::NoFile),
        Some(Entry::Dir) => Err(Stop::NotAFile),
        Some(Entry::File(bytes)) => {
            if is_opaque(bytes.as_slice()) {
                return Err(Stop::NotKept);
            }
            Ok(bytes.as_slice())
        }
    }
}

/// Returns whether a line stands as it was observed.
fn is_observed(asked: &AskedRepair, number: u32) -> bool
    ensures { result ≡ is_observed asked.now number }
{
    match source_by(&asked.seen) {
        Source::Played => false,
        Source::Seen(seen) => seen.observed.contains(&number),
    }
}

/// Returns what the line with a number prints in a repair.
fn printed_bytes<'t, 'a>(asked: &'t AskedRepair, number: u32) -> Result<&'t [u8], Stop<'a>>
    ensures ok { IfOk result (λ bytes. IsPrinted asked.entry.now number bytes.now) }
    ensures err { IfErr result (StopsOutput asked.entry.now number) }
{
    if asked.recording.run_of(number).is_none() {
        return Err(Stop::NoLine(number));
    }
    if is_observed(asked, number) {
        return Err(Stop::UnknownOutput(number));
    }
    match asked.repair.recording.run_of(number) {
        Some(noted) => Ok(noted.output.as_slice()),
        None => Err(Stop::LineCancelled(number)),
    }
}

/// Returns the bytes that are wanted of a repair.
fn bytes_of<'t, 'a>(asked: &'t AskedRepair, wanted: &BytesOf) -> Result<&'t [u8], Stop<'a>>
    ensures ok { IfOk result (λ bytes. IsBytesOf wanted.now asked.entry.now bytes.now) }
    ensures err { IfErr result (StopsBytesOf wanted.now asked.entry.now) }
{
    match wanted {
        BytesOf::File(path) => file_bytes(asked.repair.state().tree().get(path)),
        BytesOf::Output(number) => printed_bytes(asked, *number),
    }
}

/// Returns the bytes that are asked for.
pub(crate) fn bytes_answer<'a, R: Threads + Sync + AllocGlobal, P: Progress>(
    rt: &R,
    progress: &P,
    inputs: &Inputs<'a>,
    request: CatRequest<'a>,
) -> Result<Answer, Stop<'a>>
    ensures ok { IfOk result (λ answer.
        Says (IsBytes (inputs_view inputs.now) (cat_view request.entry)) (answer_view answer)) }
    ensures err { IfErr result (StopsBytes (inputs_view inputs.now) (cat_view request.entry)) }
{
    let CatRequest {
        repair,
        bytes: wanted,
    } = request;
    let asked = asked_repair(rt, progress, inputs, repair, Check::Unwanted)?;
    let bytes = bytes_of(&asked, &wanted)?;
    Ok(Answer {
        text: Vec::from_slice(rt.alloc(), bytes)?,
        is_no: false,
    })
}
