//! `grep` (XCU grep).
ghost use Rattle.std.specs.Prelude.{◌≡◌, IfOk, map, string_bytes};
ghost use Rattle.retro_local.specs.Runs.{Computes, Extends};
ghost use Rattle.retro_utils.specs.Reading.{sources};
ghost use Rattle.retro_utils.specs.Calls.{grep_call};
ghost use Rattle.retro_utils.specs.Searching.{grep, searched};

use crate::done::Done;
use crate::input::Input;
use crate::progress::Progress;
use crate::reader::Reader;
use crate::request::request_of;
use retro_local::Local;
use retro_text::{Search, label};
use retro_tree::{NoMem, View};
use std::alloc::Global;
use std::slice::from_ref;

/// Returns what a search finds in each file in turn.
fn search_files<V: View>(
    alloc: Global,
    search: &Search,
    files: &[String],
    reader: Reader,
    local: &mut Local<V>,
) -> Result<Done, NoMem>
    ensures means { IfOk result (λ done. Computes local.old local.new
        (λ s. (
          s,
          searched search.now (map string_bytes files.now)
              (sources reader.sid (map string_bytes files.now) reader.input s),
        )) done) }
    ensures extends { Extends reader.sid local.old local.new }
{
    let several = files.len() > 1;
    let mut reader = reader;
    let mut progress = Progress::new(alloc);
    for operand in files {
        if search.is_quiet() && progress.selected {
            return Ok(progress.into_done(search));
        }
        match reader.read(alloc, operand, local)? {
            Ok(bytes) => {
                let label = label(alloc, several, operand)?;
                let found = search.run(alloc, label.as_slice(), bytes.as_slice())?;
                progress.add(&found)?;
            }
            Err(reason) => progress.fail(operand, reason)?,
        }
    }
    Ok(progress.into_done(search))
}

/// Returns what a search finds in each file in turn, or in standard input if there is no operand.
#[tactic(auto, unfolding(crate::specs::Searching::grep))]
fn grep<V: View>(
    alloc: Global,
    search: &Search,
    files: &[String],
    reader: Reader,
    local: &mut Local<V>,
) -> Result<Done, NoMem>
    ensures means { IfOk result (λ done. Computes local.old local.new
        (grep reader.sid search.now (map string_bytes files.now) reader.input) done) }
    ensures extends { Extends reader.sid local.old local.new }
{
    match files {
        [] => {
            let dash = String::from_str(alloc, "-")?;
            Ok(search_files(alloc, search, from_ref(&dash), reader, local)?)
        }
        [_, ..] => Ok(search_files(alloc, search, files, reader, local)?),
    }
}

/// Runs `grep -F [-vxcq] patterns [file..]`.
#[tactic(auto, unfolding(crate::specs::Calls::grep_call))]
pub(crate) fn run_grep<V: View>(
    alloc: Global,
    sid: u32,
    fields: &[String],
    input: Input,
    local: &mut Local<V>,
) -> Result<Done, NoMem>
    ensures means { IfOk result (λ done. Computes local.old local.new
        (grep_call sid (map string_bytes fields.now) input) done) }
    ensures extends { Extends sid local.old local.new }
{
    let Some(request) = request_of(alloc, b"Fvxcq", b"", fields)? else {
        return Ok(Done::usage(alloc, "grep")?);
    };
    let reader = Reader { sid, input };
    match Search::of(&request) {
        Some((search, files)) => Ok(grep(alloc, &search, files, reader, local)?),
        None => Ok(Done::usage(alloc, "grep")?),
    }
}
