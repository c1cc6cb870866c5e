//! `mv` (XCU mv).
ghost use Rattle.std.specs.Prelude.{◌≡◌, false, IfOk, None, map, string_bytes};
ghost use Rattle.retro_tree.specs.Path.{is_root};
ghost use Rattle.retro_tree.specs.Tree.{node_in};
ghost use Rattle.retro_tree.specs.declared.kind.Kind.TheVariants as kinds;
ghost use Rattle.retro_tree.specs.declared.node.Node.TheVariants.{Dir, File};
ghost use Rattle.retro_local.specs.Kinds.{kind_at};
ghost use Rattle.retro_local.specs.Runs.{Always, Computes, Extends, ExtendsTree};
ghost use Rattle.retro_utils.specs.Mv.{is_device, move_all, move_operand, move_path, move_to, mv};
ghost use Rattle.retro_utils.specs.Mv.{no_dir_place, no_place, overlap, put_moved};
ghost use Rattle.retro_utils.specs.Outcomes.{nothing_done};

use crate::done::Done;
use crate::operand::locate;
use crate::reason::{Reason, no_directory, refusal};
use crate::target::Target;
use crate::transfer_fault::TransferFault;
use crate::utilities::rm::is_protected;
use retro_local::Local;
use retro_moves::move_dir;
use retro_tree::{Bytes, Kind, NoMem, Node, Path, View};
use std::alloc::Global;

/// Returns whether a path is `/dev` or `/dev/null`.
#[tactic(auto, unfolding(crate::specs::Mv::is_device))]
fn is_device(path: &Path) -> bool
    ensures { result ≡ is_device path.now }
{
    path.as_str() == "/dev" || path.is_null()
}

/// Returns the reason why a path can't be moved to itself or below itself, or `None` for a move to
/// another path.
fn overlap(from: &Path, to: &Path) -> Option<Reason>
    ensures { result ≡ overlap from.now to.now }
{
    match to.strip_prefix(from) {
        None => None,
        Some(names) if names.is_empty() => Some(Reason::SameFile),
        Some(_) => Some(Reason::InvalidArgument),
    }
}

/// Returns the reason why a directory can't be put at a path, or `None` if it can. It can replace
/// only an empty directory.
#[tactic(auto, using(crate::proofs::Moving::listings))]
fn no_dir_place<V: View>(
    alloc: Global,
    path: &Path,
    local: &mut Local<V>,
) -> Result<Option<Reason>, NoMem>
    ensures means { IfOk result (λ reason. Computes local.old local.new
        (λ s. (s, no_dir_place (kind_at path.now s) path.now s)) reason) }
    ensures extends { ExtendsTree local.old local.new }
{
    match local.kind_at(alloc, path)? {
        Kind::File => Ok(Some(Reason::NotDirectory)),
        Kind::Dir => match local.names(alloc, path)? {
            Some(names) if names.names().is_empty() => Ok(None),
            _ => Ok(Some(Reason::NotEmpty)),
        },
        Kind::Missing => {
            let parent = path.parent(alloc)?;
            Ok(no_directory(local.kind_at(alloc, &parent)?))
        }
    }
}

/// Moves a directory with everything below it to another path.
#[tactic(auto, using(crate::proofs::Moving::may_move))]
fn move_directory<V: View>(
    alloc: Global,
    from: &Path,
    to: &Path,
    local: &mut Local<V>,
) -> Result<Result<(), TransferFault>, NoMem>
    requires device { is_device to.now ≡ false }
    requires apart { overlap from.now to.now ≡ None }
    requires here { Always (λ s. node_in from.now s.tree ≡ Dir) local.old }
    ensures means { IfOk result (λ outcome. Computes local.old local.new
        (λ s. put_moved (no_place kinds.Dir to.now s) from.now to.now s) outcome) }
    ensures extends { ExtendsTree local.old local.new }
{
    match no_dir_place(alloc, to, local)? {
        Some(reason) => Ok(Err(TransferFault::Target(reason))),
        None => {
            move_dir(alloc, from, to, local)?;
            Ok(Ok(()))
        }
    }
}

/// Moves a file with these bytes to another path.
#[tactic(auto, using(crate::proofs::Moving::moving_file))]
fn move_file<V: View>(
    alloc: Global,
    from: Path,
    to: Path,
    bytes: Bytes,
    local: &mut Local<V>,
) -> Result<Result<(), TransferFault>, NoMem>
    requires root { is_root from ≡ false }
    requires device { is_device to ≡ false }
    requires apart { overlap from to ≡ None }
    requires here { Always (λ s. node_in from s.tree ≡ File bytes) local.old }
    ensures means { IfOk result (λ outcome. Computes local.old local.new
        (λ s. put_moved (no_place kinds.File to s) from to s) outcome) }
    ensures extends { ExtendsTree local.old local.new }
{
    local.keeps_law();
    match refusal(local.can_write(alloc, &to, 0)?) {
        Some(reason) => Ok(Err(TransferFault::Target(reason))),
        None => {
            local.put_file(alloc, to, bytes)?;
            local.remove(alloc, from)?;
            Ok(Ok(()))
        }
    }
}

/// Moves what is at a path to another path.
#[tactic(auto, unfolding(crate::specs::Mv::move_path))]
fn move_path<V: View>(
    alloc: Global,
    from: Path,
    to: Path,
    local: &mut Local<V>,
) -> Result<Result<(), TransferFault>, NoMem>
    requires root { is_root from ≡ false }
    requires device { is_device to ≡ false }
    ensures means { IfOk result (λ outcome. Computes local.old local.new
        (move_path from to) outcome) }
    ensures extends { ExtendsTree local.old local.new }
{
    let overlap = overlap(&from, &to);
    match local.node(alloc, &from)? {
        Node::Missing => Ok(Err(TransferFault::Source(Reason::NoSuchFile))),
        Node::Dir => match overlap {
            Some(reason) => Ok(Err(TransferFault::Source(reason))),
            None => Ok(move_directory(alloc, &from, &to, local)?),
        },
        Node::File(bytes) => match overlap {
            Some(reason) => Ok(Err(TransferFault::Source(reason))),
            None => Ok(move_file(alloc, from, to, bytes, local)?),
        },
    }
}

/// Moves what is at the path that an operand names, unless one of the two paths is protected.
#[tactic(auto, unfolding(crate::specs::Mv::move_to), using(crate::proofs::Facts::below_root))]
fn move_to<V: View>(
    alloc: Global,
    source: &str,
    from: Path,
    to: Path,
    local: &mut Local<V>,
) -> Result<Result<(), TransferFault>, NoMem>
    ensures means { IfOk result (λ outcome. Computes local.old local.new
        (move_to source.now from to) outcome) }
    ensures extends { ExtendsTree local.old local.new }
{
    if is_protected(alloc, source, &from)? || is_device(&to) {
        return Ok(Err(TransferFault::Source(Reason::NotPermitted)));
    }
    Ok(move_path(alloc, from, to, local)?)
}

/// Moves what an operand names.
#[tactic(auto, unfolding(crate::specs::Mv::move_operand))]
fn move_operand<V: View>(
    alloc: Global,
    sid: u32,
    target: &Target,
    source: &str,
    local: &mut Local<V>,
) -> Result<Result<(), TransferFault>, NoMem>
    ensures means { IfOk result (λ outcome. Computes local.old local.new
        (move_operand sid target.now source.now) outcome) }
    ensures extends { Extends sid local.old local.new }
{
    match locate(alloc, sid, source, local)? {
        Ok(from) => {
            let to = target.path_for(alloc, &from)?;
            Ok(move_to(alloc, source, from, to, local)?)
        }
        Err(reason) => Ok(Err(TransferFault::Source(reason))),
    }
}

/// Moves each source in turn.
fn move_all<V: View>(
    alloc: Global,
    sid: u32,
    target: (&Target, &str),
    sources: &[String],
    local: &mut Local<V>,
) -> Result<Done, NoMem>
    ensures means { IfOk result (λ done. Computes local.old local.new
        (move_all sid target.entry.0.now target.entry.1.now (map string_bytes sources.now)
        (nothing_done 0)) done) }
    ensures extends { Extends sid local.old local.new }
{
    let (target, last) = target;
    let mut done = Done::nothing(alloc, 0);
    for source in sources {
        let outcome = move_operand(alloc, sid, target, source, local)?;
        done.transfer("mv", source, last, outcome)?;
    }
    Ok(done)
}

/// Runs `mv`: moves each source to the target that the last operand names.
#[tactic(auto, unfolding(crate::specs::Mv::mv))]
pub(crate) fn mv<V: View>(
    alloc: Global,
    sid: u32,
    last: &str,
    sources: &[String],
    local: &mut Local<V>,
) -> Result<Done, NoMem>
    ensures means { IfOk result (λ done. Computes local.old local.new
        (mv sid last.now (map string_bytes sources.now)) done) }
    ensures extends { Extends sid local.old local.new }
{
    let several = match sources {
        [] => return Ok(Done::usage(alloc, "mv")?),
        [_] => false,
        [_, _, ..] => true,
    };
    match Target::of(alloc, sid, several, last, local)? {
        Ok(target) => Ok(move_all(alloc, sid, (&target, last), sources, local)?),
        Err(reason) => {
            let mut done = Done::nothing(alloc, 0);
            done.fault("mv", last, reason)?;
            Ok(done)
        }
    }
}
