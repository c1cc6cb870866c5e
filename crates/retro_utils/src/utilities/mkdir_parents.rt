//! `mkdir -p` (XCU mkdir).
ghost use Rattle.std.specs.Prelude.{◌≡◌, [], IfOk, codes, map, string_bytes};
ghost use Rattle.retro_tree.specs.Path.{parent_of};
ghost use Rattle.retro_tree.specs.Tree.{node_in};
ghost use Rattle.retro_tree.specs.declared.node.Node.TheVariants.{Dir};
ghost use Rattle.retro_local.specs.Runs.{Always, Computes, Extends, ExtendsTree};
ghost use Rattle.retro_utils.specs.MkdirParents.{blocked_at, make_parents, mkdir_parents};
ghost use Rattle.retro_utils.specs.inner.MkdirSteps.{make_each, make_step};
ghost use Rattle.retro_utils.specs.Operands.{at_operand, in_turn};
ghost use Rattle.retro_utils.specs.Outcomes.{nothing_done};

use crate::done::Done;
use crate::operand::locate;
use crate::reason::Reason;
use retro_local::Local;
use retro_tree::{Kind, NoMem, Path, View};
use std::alloc::Global;

/// Returns the reason why a path can't be made, because its prefix `prefix` is a file.
fn blocked_at(path: &Path, prefix: &Path) -> Reason
    ensures { result ≡ blocked_at path.now prefix.now }
{
    if prefix == path {
        Reason::FileExists
    } else {
        Reason::NotDirectory
    }
}

/// Makes a prefix of a path, if it is missing. Its parent must be a directory.
#[tactic(auto, unfolding(crate::specs::inner::MkdirSteps::make_step, retro_local::specs::Kinds::kind_at))]
fn make_step<V: View>(
    alloc: Global,
    path: &Path,
    prefix: &Path,
    local: &mut Local<V>,
) -> Result<Result<(), Reason>, NoMem>
    requires { Always (λ s. node_in (parent_of prefix.now) s.tree ≡ Dir) local.old }
    ensures means { IfOk result (λ outcome. Computes local.old local.new
        (make_step path.now prefix.now) outcome) }
    ensures extends { ExtendsTree local.old local.new }
{
    if prefix.is_null() {
        return Ok(Err(blocked_at(path, prefix)));
    }
    match local.kind(alloc, prefix)? {
        Kind::File => Ok(Err(blocked_at(path, prefix))),
        Kind::Dir => Ok(Ok(())),
        Kind::Missing => {
            local.put_dir(alloc, prefix.copy()?)?;
            Ok(Ok(()))
        }
    }
}

/// Makes each prefix of a path in turn, up to the first one that is a file.
#[tactic(auto, using(crate::proofs::Parents::making))]
fn make_each<V: View>(
    alloc: Global,
    path: &Path,
    local: &mut Local<V>,
) -> Result<Result<(), Reason>, NoMem>
    ensures means { IfOk result (λ outcome. Computes local.old local.new
        (make_each path.now [] path.now) outcome) }
    ensures extends { ExtendsTree local.old local.new }
{
    for prefix in path.prefixes(alloc)? {
        match make_step(alloc, path, &prefix, local)? {
            Ok(()) => (),
            Err(reason) => return Ok(Err(reason)),
        }
    }
    Ok(Ok(()))
}

/// Makes the prefixes of the path that an operand names.
#[tactic(auto, using(crate::proofs::Parents::each_is_all))]
fn make_operand<V: View>(
    alloc: Global,
    sid: u32,
    operand: &str,
    local: &mut Local<V>,
) -> Result<Result<(), Reason>, NoMem>
    ensures means { IfOk result (λ outcome. Computes local.old local.new
        (at_operand sid make_parents operand.now) outcome) }
    ensures extends { Extends sid local.old local.new }
{
    match locate(alloc, sid, operand, local)? {
        Ok(path) => Ok(make_each(alloc, &path, local)?),
        Err(reason) => Ok(Err(reason)),
    }
}

/// Makes the path of each operand in turn.
fn make_paths<V: View>(
    alloc: Global,
    sid: u32,
    operands: &[String],
    local: &mut Local<V>,
) -> Result<Done, NoMem>
    ensures means { IfOk result (λ done. Computes local.old local.new
        (in_turn (codes "mkdir") (at_operand sid make_parents) (map string_bytes operands.now)
        (nothing_done 0)) done) }
    ensures extends { Extends sid local.old local.new }
{
    let mut done = Done::nothing(alloc, 0);
    for operand in operands {
        let outcome = make_operand(alloc, sid, operand, local)?;
        done.outcome("mkdir", operand, outcome)?;
    }
    Ok(done)
}

/// Runs `mkdir -p`: makes each path that an operand names, with its missing parents.
#[tactic(auto, unfolding(crate::specs::MkdirParents::mkdir_parents))]
pub(crate) fn mkdir_parents<V: View>(
    alloc: Global,
    sid: u32,
    operands: &[String],
    local: &mut Local<V>,
) -> Result<Done, NoMem>
    ensures means { IfOk result (λ done. Computes local.old local.new
        (mkdir_parents sid (map string_bytes operands.now)) done) }
    ensures extends { Extends sid local.old local.new }
{
    match operands {
        [] => Ok(Done::usage(alloc, "mkdir")?),
        [_, ..] => Ok(make_paths(alloc, sid, operands, local)?),
    }
}
