//! The utilities, run on the fields after their names.
ghost use Rattle.std.specs.Prelude.{◌≡◌, IfOk, map, option_map, string_bytes};
ghost use Rattle.retro_local.specs.Runs.{Computes, Extends, ExtendsTree};
ghost use Rattle.retro_utils.specs.Calls.{cat_call, cd_call, cp_call, echo, id_call, mkdir_call};
ghost use Rattle.retro_utils.specs.Calls.{mv_call, pwd_call, removal, rm_call, split_last};
ghost use Rattle.retro_utils.specs.Calls.{tee_call, tee_mode};

use crate::done::Done;
use crate::input::Input;
use crate::mode::Mode;
use crate::place::Place;
use crate::removal::Removal;
use crate::request::request_of;
use crate::utilities::cat::cat;
use crate::utilities::cd::cd;
use crate::utilities::cp::cp;
use crate::utilities::id::id;
use crate::utilities::mkdir::mkdir;
use crate::utilities::mkdir_parents::mkdir_parents;
use crate::utilities::mv::mv;
use crate::utilities::pwd::pwd;
use crate::utilities::rm::rm;
use crate::utilities::tee::{TeeOperands, tee};
use retro_local::Local;
use retro_text::{Request, echo_text};
use retro_tree::{NoMem, View};
use std::alloc::Global;

/// Runs `echo [-n] [text..]`: prints the fields, with a space between each two, and a newline.
pub(crate) fn run_echo(alloc: Global, fields: &[String]) -> Result<Done, NoMem>
    ensures { IfOk result (λ done. done ≡ echo (map string_bytes fields.now)) }
{
    let mut done = Done::nothing(alloc, 0);
    done.out = echo_text(alloc, fields)?;
    Ok(done)
}

/// Runs `pwd`.
#[tactic(auto, unfolding(crate::specs::Calls::pwd_call))]
pub(crate) fn run_pwd<V: View>(
    alloc: Global,
    sid: u32,
    fields: &[String],
    local: &mut Local<V>,
) -> Result<Done, NoMem>
    ensures means { IfOk result (λ done. Computes local.old local.new
        (pwd_call sid (map string_bytes fields.now)) done) }
    ensures extends { Extends sid local.old local.new }
{
    match request_of(alloc, b"", b"", fields)? {
        Some(request) => Ok(pwd(alloc, sid, request.operands(), local)?),
        None => Ok(Done::usage(alloc, "pwd")?),
    }
}

/// Runs `cd [dir]`.
#[tactic(auto, unfolding(crate::specs::Calls::cd_call))]
pub(crate) fn run_cd<V: View>(
    alloc: Global,
    place: Place,
    fields: &[String],
    local: &mut Local<V>,
) -> Result<Done, NoMem>
    ensures means { IfOk result (λ done. Computes local.old local.new
        (cd_call place (map string_bytes fields.now)) done) }
    ensures extends { Extends place.sid local.old local.new }
{
    match request_of(alloc, b"", b"", fields)? {
        Some(request) => Ok(cd(alloc, place, request.operands(), local)?),
        None => Ok(Done::usage(alloc, "cd")?),
    }
}

/// Runs `id -u name`.
#[tactic(auto, unfolding(crate::specs::Calls::id_call))]
pub(crate) fn run_id<V: View>(
    alloc: Global,
    fields: &[String],
    local: &mut Local<V>,
) -> Result<Done, NoMem>
    ensures means { IfOk result (λ done. Computes local.old local.new
        (id_call (map string_bytes fields.now)) done) }
    ensures extends { ExtendsTree local.old local.new }
{
    match request_of(alloc, b"u", b"", fields)? {
        Some(request) if request.has(b'u') => Ok(id(alloc, request.operands(), local)?),
        Some(_) | None => Ok(Done::usage(alloc, "id")?),
    }
}

/// Runs `cat [-u] [file..]`. `-u` changes nothing.
#[tactic(auto, unfolding(crate::specs::Calls::cat_call))]
pub(crate) fn run_cat<V: View>(
    alloc: Global,
    sid: u32,
    fields: &[String],
    input: Input,
    local: &mut Local<V>,
) -> Result<Done, NoMem>
    ensures means { IfOk result (λ done. Computes local.old local.new
        (cat_call sid (map string_bytes fields.now) input) done) }
    ensures extends { Extends sid local.old local.new }
{
    match request_of(alloc, b"u", b"", fields)? {
        Some(request) => Ok(cat(alloc, sid, request.operands(), input, local)?),
        None => Ok(Done::usage(alloc, "cat")?),
    }
}

/// Returns how `tee` opens its files: `-a` appends to them.
fn tee_mode(request: &Request) -> Mode
    ensures { result ≡ tee_mode request.now.options }
{
    if request.has(b'a') {
        Mode::Append
    } else {
        Mode::Truncate
    }
}

/// Runs `tee [-a] [file..]`.
#[tactic(auto, unfolding(crate::specs::Calls::tee_call))]
pub(crate) fn run_tee<V: View>(
    alloc: Global,
    sid: u32,
    fields: &[String],
    input: Input,
    local: &mut Local<V>,
) -> Result<Done, NoMem>
    ensures means { IfOk result (λ done. Computes local.old local.new
        (tee_call sid (map string_bytes fields.now) input) done) }
    ensures extends { Extends sid local.old local.new }
{
    match request_of(alloc, b"a", b"", fields)? {
        Some(request) => {
            let operands = TeeOperands {
                mode: tee_mode(&request),
                operands: request.operands(),
            };
            Ok(tee(alloc, sid, operands, input, local)?)
        }
        None => Ok(Done::usage(alloc, "tee")?),
    }
}

/// Runs `mkdir [-p] dir..`.
#[tactic(auto, unfolding(crate::specs::Calls::mkdir_call))]
pub(crate) fn run_mkdir<V: View>(
    alloc: Global,
    sid: u32,
    fields: &[String],
    local: &mut Local<V>,
) -> Result<Done, NoMem>
    ensures means { IfOk result (λ done. Computes local.old local.new
        (mkdir_call sid (map string_bytes fields.now)) done) }
    ensures extends { Extends sid local.old local.new }
{
    match request_of(alloc, b"p", b"", fields)? {
        Some(request) => {
            if request.has(b'p') {
                Ok(mkdir_parents(alloc, sid, request.operands(), local)?)
            } else {
                Ok(mkdir(alloc, sid, request.operands(), local)?)
            }
        }
        None => Ok(Done::usage(alloc, "mkdir")?),
    }
}

/// Returns how `rm` removes, by its options.
fn removal(request: &Request) -> Removal
    ensures { result ≡ removal request.now.options }
{
    Removal {
        forced: request.has(b'f'),
        recursive: request.has(b'r') || request.has(b'R'),
    }
}

/// Runs `rm [-frR] file..`.
#[tactic(auto, unfolding(crate::specs::Calls::rm_call))]
pub(crate) fn run_rm<V: View>(
    alloc: Global,
    sid: u32,
    fields: &[String],
    local: &mut Local<V>,
) -> Result<Done, NoMem>
    ensures means { IfOk result (λ done. Computes local.old local.new
        (rm_call sid (map string_bytes fields.now)) done) }
    ensures extends { Extends sid local.old local.new }
{
    match request_of(alloc, b"frR", b"", fields)? {
        Some(request) => {
            let how = removal(&request);
            Ok(rm(alloc, sid, how, request.operands(), local)?)
        }
        None => Ok(Done::usage(alloc, "rm")?),
    }
}

/// Returns the last operand and those before it, or `None` if there is no operand.
#[tactic(auto, using(crate::proofs::Splitting::splitting))]
fn split_last(operands: &[String]) -> Option<(&str, &[String])>
    ensures { option_map (λ r. (r.0.now, map string_bytes r.1.now)) result
        ≡ split_last (map string_bytes operands.entry.now) }
{
    match operands {
        [] => None,
        [before @ .., last] => Some((last.as_str(), before)),
    }
}

/// Runs `cp source target` or `cp source.. dir`.
#[tactic(auto, unfolding(crate::specs::Calls::cp_call))]
pub(crate) fn run_cp<V: View>(
    alloc: Global,
    sid: u32,
    fields: &[String],
    local: &mut Local<V>,
) -> Result<Done, NoMem>
    ensures means { IfOk result (λ done. Computes local.old local.new
        (cp_call sid (map string_bytes fields.now)) done) }
    ensures extends { Extends sid local.old local.new }
{
    let Some(request) = request_of(alloc, b"", b"", fields)? else {
        return Ok(Done::usage(alloc, "cp")?);
    };
    match split_last(request.operands()) {
        Some((last, sources)) => Ok(cp(alloc, sid, last, sources, local)?),
        None => Ok(Done::usage(alloc, "cp")?),
    }
}

/// Runs `mv [-f] source target` or `mv [-f] source.. dir`. `-f` changes nothing.
#[tactic(auto, unfolding(crate::specs::Calls::mv_call))]
pub(crate) fn run_mv<V: View>(
    alloc: Global,
    sid: u32,
    fields: &[String],
    local: &mut Local<V>,
) -> Result<Done, NoMem>
    ensures means { IfOk result (λ done. Computes local.old local.new
        (mv_call sid (map string_bytes fields.now)) done) }
    ensures extends { Extends sid local.old local.new }
{
    let Some(request) = request_of(alloc, b"f", b"", fields)? else {
        return Ok(Done::usage(alloc, "mv")?);
    };
    match split_last(request.operands()) {
        Some((last, sources)) => Ok(mv(alloc, sid, last, sources, local)?),
        None => Ok(Done::usage(alloc, "mv")?),
    }
}
