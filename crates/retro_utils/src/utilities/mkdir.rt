//! `mkdir` (XCU mkdir).
ghost use Rattle.std.specs.Prelude.{◌≡◌, false, IfOk, codes, map, string_bytes};
ghost use Rattle.retro_tree.specs.Path.{is_null};
ghost use Rattle.retro_tree.specs.State.{put_node};
ghost use Rattle.retro_tree.specs.Path.{parent_of};
ghost use Rattle.retro_tree.specs.declared.node.Node.TheVariants.{Dir};
ghost use Rattle.retro_local.specs.Kinds.{kind_at};
ghost use Rattle.retro_local.specs.Runs.{Computes, Extends, ExtendsTree};
ghost use Rattle.retro_utils.specs.Mkdir.{make_dir, mkdir};
ghost use Rattle.retro_utils.specs.Operands.{at_operand, in_turn};
ghost use Rattle.retro_utils.specs.Outcomes.{made_unless, nothing_done};
ghost use Rattle.retro_utils.specs.Reasons.{no_directory};

use crate::done::Done;
use crate::operand::locate;
use crate::reason::Reason;
use retro_local::Local;
use retro_tree::{Kind, NoMem, Path, View};
use std::alloc::Global;

/// Puts a directory at a path, if its parent is a directory.
#[tactic(auto, using(crate::proofs::Facts::directory_at))]
fn put_in_parent<V: View>(
    alloc: Global,
    path: Path,
    local: &mut Local<V>,
) -> Result<Result<(), Reason>, NoMem>
    requires { is_null path ≡ false }
    ensures means { IfOk result (λ outcome. Computes local.old local.new
        (λ s. made_unless (no_directory (kind_at (parent_of path) s)) (put_node path Dir) s)
        outcome) }
    ensures extends { ExtendsTree local.old local.new }
{
    let parent = path.parent(alloc)?;
    match local.kind_at(alloc, &parent)? {
        Kind::Missing => Ok(Err(Reason::NoSuchFile)),
        Kind::File => Ok(Err(Reason::NotDirectory)),
        Kind::Dir => {
            local.put_dir(alloc, path)?;
            Ok(Ok(()))
        }
    }
}

/// Makes a directory at a missing path whose parent is a directory.
#[tactic(auto, unfolding(crate::specs::Mkdir::make_dir, retro_local::specs::Kinds::kind_at))]
fn make_dir<V: View>(
    alloc: Global,
    path: Path,
    local: &mut Local<V>,
) -> Result<Result<(), Reason>, NoMem>
    ensures means { IfOk result (λ outcome. Computes local.old local.new (make_dir path) outcome) }
    ensures extends { ExtendsTree local.old local.new }
{
    if path.is_null() {
        return Ok(Err(Reason::FileExists));
    }
    match local.kind(alloc, &path)? {
        Kind::Missing => Ok(put_in_parent(alloc, path, local)?),
        Kind::Dir | Kind::File => Ok(Err(Reason::FileExists)),
    }
}

/// Makes the directory that an operand names.
fn make_operand<V: View>(
    alloc: Global,
    sid: u32,
    operand: &str,
    local: &mut Local<V>,
) -> Result<Result<(), Reason>, NoMem>
    ensures means { IfOk result (λ outcome. Computes local.old local.new
        (at_operand sid make_dir operand.now) outcome) }
    ensures extends { Extends sid local.old local.new }
{
    match locate(alloc, sid, operand, local)? {
        Ok(path) => Ok(make_dir(alloc, path, local)?),
        Err(reason) => Ok(Err(reason)),
    }
}

/// Makes the directory of each operand in turn.
fn make_dirs<V: View>(
    alloc: Global,
    sid: u32,
    operands: &[String],
    local: &mut Local<V>,
) -> Result<Done, NoMem>
    ensures means { IfOk result (λ done. Computes local.old local.new
        (in_turn (codes "mkdir") (at_operand sid make_dir) (map string_bytes operands.now)
        (nothing_done 0)) done) }
    ensures extends { Extends sid local.old local.new }
{
    let mut done = Done::nothing(alloc, 0);
    for operand in operands {
        let outcome = make_operand(alloc, sid, operand, local)?;
        done.outcome("mkdir", operand, outcome)?;
    }
    Ok(done)
}

/// Runs `mkdir`: makes a directory for each operand.
#[tactic(auto, unfolding(crate::specs::Mkdir::mkdir))]
pub(crate) fn mkdir<V: View>(
    alloc: Global,
    sid: u32,
    operands: &[String],
    local: &mut Local<V>,
) -> Result<Done, NoMem>
    ensures means { IfOk result (λ done. Computes local.old local.new
        (mkdir sid (map string_bytes operands.now)) done) }
    ensures extends { Extends sid local.old local.new }
{
    match operands {
        [] => Ok(Done::usage(alloc, "mkdir")?),
        [_, ..] => Ok(make_dirs(alloc, sid, operands, local)?),
    }
}
