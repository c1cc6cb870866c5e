//! `cut` (XCU cut).
ghost use Rattle.std.specs.Prelude.{◌≡◌, IfOk, map, string_bytes};
ghost use Rattle.retro_local.specs.Runs.{Computes, Extends};
ghost use Rattle.retro_utils.specs.Calls.{cut_call};
ghost use Rattle.retro_utils.specs.Cutting.{cut, cut_reading, cut_sources};
ghost use Rattle.retro_utils.specs.Outcomes.{nothing_done};
ghost use Rattle.retro_utils.specs.Reading.{sources};
ghost use Rattle.retro_text.specs.Cut.{cut_in};

use crate::done::Done;
use crate::input::Input;
use crate::reader::Reader;
use crate::reason::Reason;
use crate::request::request_of;
use retro_local::Local;
use retro_text::{Cut, Request, UsageError};
use retro_tree::{Bytes, NoMem, View};
use std::alloc::Global;
use std::slice::from_ref;

/// Returns what is left of the bytes that were read. Returns the reason if reading them failed.
fn cut_reading(
    alloc: Global,
    how: &Cut,
    reading: Result<Bytes, Reason>,
) -> Result<Result<Bytes, Reason>, NoMem>
    ensures { IfOk result (λ left. left ≡ cut_reading how.now reading) }
{
    match reading {
        Ok(bytes) => Ok(Ok(how.text(alloc, bytes.as_slice())?)),
        Err(reason) => Ok(Err(reason)),
    }
}

/// Returns what is left of each file in turn.
fn cut_files<V: View>(
    alloc: Global,
    how: &Cut,
    files: &[String],
    reader: Reader,
    local: &mut Local<V>,
) -> Result<Done, NoMem>
    ensures means { IfOk result (λ done. Computes local.old local.new
        (λ s. (
          s,
          cut_sources how.now (sources reader.sid (map string_bytes files.now) reader.input s)
              (nothing_done 0),
        )) done) }
    ensures extends { Extends reader.sid local.old local.new }
{
    let mut reader = reader;
    let mut done = Done::nothing(alloc, 0);
    for operand in files {
        let reading = reader.read(alloc, operand, local)?;
        let left = cut_reading(alloc, how, reading)?;
        done.reading("cut", operand, left)?;
    }
    Ok(done)
}

/// Returns what is left of each file in turn, or of standard input if there is no operand.
#[tactic(auto, unfolding(crate::specs::Cutting::cut))]
fn cut<V: View>(
    alloc: Global,
    how: &Cut,
    operands: &[String],
    reader: Reader,
    local: &mut Local<V>,
) -> Result<Done, NoMem>
    ensures means { IfOk result (λ done. Computes local.old local.new
        (cut reader.sid how.now (map string_bytes operands.now) reader.input) done) }
    ensures extends { Extends reader.sid local.old local.new }
{
    match operands {
        [] => {
            let dash = String::from_str(alloc, "-")?;
            Ok(cut_files(alloc, how, from_ref(&dash), reader, local)?)
        }
        [_, ..] => Ok(cut_files(alloc, how, operands, reader, local)?),
    }
}

/// Returns what the options ask for, or `None` if they aren't a form of the synopsis.
fn cut_of(alloc: Global, request: &Request) -> Result<Option<Cut>, NoMem>
    ensures { IfOk result (λ cut. cut ≡ cut_in request.now.options) }
{
    match Cut::of(alloc, request) {
        Ok(cut) => Ok(Some(cut)),
        Err(UsageError::Usage) => Ok(None),
        Err(UsageError::NoMem) => Err(NoMem),
    }
}

/// Runs `cut -b list [file..]` or `cut -f list [-d c] [-s] [file..]`.
#[tactic(auto, unfolding(crate::specs::Calls::cut_call))]
pub(crate) fn run_cut<V: View>(
    alloc: Global,
    sid: u32,
    fields: &[String],
    input: Input,
    local: &mut Local<V>,
) -> Result<Done, NoMem>
    ensures means { IfOk result (λ done. Computes local.old local.new
        (cut_call sid (map string_bytes fields.now) input) done) }
    ensures extends { Extends sid local.old local.new }
{
    let Some(request) = request_of(alloc, b"s", b"bfd", fields)? else {
        return Ok(Done::usage(alloc, "cut")?);
    };
    let reader = Reader { sid, input };
    match cut_of(alloc, &request)? {
        Some(how) => Ok(cut(alloc, &how, request.operands(), reader, local)?),
        None => Ok(Done::usage(alloc, "cut")?),
    }
}
