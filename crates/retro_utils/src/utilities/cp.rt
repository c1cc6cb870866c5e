//! `cp` (XCU cp).
ghost use Rattle.std.specs.Prelude.{◌≡◌, ◌≤◌, IfOk, length, map, string_bytes};
ghost use Rattle.retro_tree.specs.Node.{file_limit};
ghost use Rattle.retro_local.specs.Runs.{Always, Computes, Extends, ExtendsTree};
ghost use Rattle.retro_utils.specs.Cp.{copy_all, copy_operand, copy_path, cp, write_copy};
ghost use Rattle.retro_utils.specs.Outcomes.{nothing_done};

use crate::done::Done;
use crate::operand::{locate, read_path};
use crate::reason::{Reason, refusal};
use crate::target::Target;
use crate::transfer_fault::TransferFault;
use retro_local::Local;
use retro_tree::{Bytes, NoMem, Path, View};
use std::alloc::Global;

/// Puts bytes at a path. `/dev/null` discards them, and no query is made for it.
#[tactic(auto, unfolding(crate::specs::Cp::write_copy), using(crate::proofs::Facts::granted))]
fn write_copy<V: View>(
    alloc: Global,
    path: Path,
    text: Bytes,
    local: &mut Local<V>,
) -> Result<Result<(), TransferFault>, NoMem>
    requires { Always (λ s. length text ≤ file_limit) local.old }
    ensures means { IfOk result (λ outcome. Computes local.old local.new
        (write_copy path text) outcome) }
    ensures extends { ExtendsTree local.old local.new }
{
    if path.is_null() {
        return Ok(Ok(()));
    }
    match refusal(local.can_write(alloc, &path, 0)?) {
        Some(reason) => Ok(Err(TransferFault::Target(reason))),
        None => {
            local.put_file(alloc, path, text)?;
            Ok(Ok(()))
        }
    }
}

/// Copies the file at a path to the target.
#[tactic(auto, unfolding(crate::specs::Cp::copy_path), using(crate::proofs::Facts::reading_fits))]
fn copy_path<V: View>(
    alloc: Global,
    target: &Target,
    path: &Path,
    local: &mut Local<V>,
) -> Result<Result<(), TransferFault>, NoMem>
    ensures means { IfOk result (λ outcome. Computes local.old local.new
        (copy_path target.now path.now) outcome) }
    ensures extends { ExtendsTree local.old local.new }
{
    match read_path(alloc, path, local)? {
        Err(reason) => Ok(Err(TransferFault::Source(reason))),
        Ok(text) => {
            let to = target.path_for(alloc, path)?;
            if *path == to {
                return Ok(Err(TransferFault::Source(Reason::SameFile)));
            }
            Ok(write_copy(alloc, to, text, local)?)
        }
    }
}

/// Copies the file that an operand names.
#[tactic(auto, unfolding(crate::specs::Cp::copy_operand))]
fn copy_operand<V: View>(
    alloc: Global,
    sid: u32,
    target: &Target,
    source: &str,
    local: &mut Local<V>,
) -> Result<Result<(), TransferFault>, NoMem>
    ensures means { IfOk result (λ outcome. Computes local.old local.new
        (copy_operand sid target.now source.now) outcome) }
    ensures extends { Extends sid local.old local.new }
{
    match locate(alloc, sid, source, local)? {
        Ok(path) => Ok(copy_path(alloc, target, &path, local)?),
        Err(reason) => Ok(Err(TransferFault::Source(reason))),
    }
}

/// Copies each source in turn.
fn copy_all<V: View>(
    alloc: Global,
    sid: u32,
    target: (&Target, &str),
    sources: &[String],
    local: &mut Local<V>,
) -> Result<Done, NoMem>
    ensures means { IfOk result (λ done. Computes local.old local.new
        (copy_all sid target.entry.0.now target.entry.1.now (map string_bytes sources.now)
        (nothing_done 0)) done) }
    ensures extends { Extends sid local.old local.new }
{
    let (target, last) = target;
    let mut done = Done::nothing(alloc, 0);
    for source in sources {
        let outcome = copy_operand(alloc, sid, target, source, local)?;
        done.transfer("cp", source, last, outcome)?;
    }
    Ok(done)
}

/// Runs `cp`: copies each source to the target that the last operand names.
#[tactic(auto, unfolding(crate::specs::Cp::cp))]
pub(crate) fn cp<V: View>(
    alloc: Global,
    sid: u32,
    last: &str,
    sources: &[String],
    local: &mut Local<V>,
) -> Result<Done, NoMem>
    ensures means { IfOk result (λ done. Computes local.old local.new
        (cp sid last.now (map string_bytes sources.now)) done) }
    ensures extends { Extends sid local.old local.new }
{
    let several = match sources {
        [] => return Ok(Done::usage(alloc, "cp")?),
        [_] => false,
        [_, _, ..] => true,
    };
    match Target::of(alloc, sid, several, last, local)? {
        Ok(target) => Ok(copy_all(alloc, sid, (&target, last), sources, local)?),
        Err(reason) => {
            let mut done = Done::nothing(alloc, 0);
            done.fault("cp", last, reason)?;
            Ok(done)
        }
    }
}
