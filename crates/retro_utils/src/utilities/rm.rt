//! `rm` (XCU rm).
ghost use Rattle.std.specs.Prelude.{◌≡◌, [], false, IfOk, codes, map, string_bytes};
ghost use Rattle.retro_tree.specs.Path.{is_root};
ghost use Rattle.retro_tree.specs.Resolving.{parts_of};
ghost use Rattle.retro_local.specs.Runs.{Computes, Extends, ExtendsTree};
ghost use Rattle.retro_utils.specs.Operands.{in_turn};
ghost use Rattle.retro_utils.specs.Outcomes.{nothing_done};
ghost use Rattle.retro_utils.specs.Rm.{ends_in_dots, is_protected, last_part, not_removed, part_or};
ghost use Rattle.retro_utils.specs.Rm.{remove_at, remove_operand, remove_path, rm};

use crate::done::Done;
use crate::operand::locate;
use crate::reason::Reason;
use crate::removal::Removal;
use retro_local::Local;
use retro_moves::remove;
use retro_tree::{Kind, NoMem, Path, View};
use std::alloc::Global;

/// Splits a text at slashes.
fn parts_of(alloc: Global, text: &str) -> Result<Vec<&str>, NoMem>
    ensures { IfOk result (λ parts. map (λ part. part.now) parts.items ≡ parts_of text.now) }
{
    text.split('/').collect(alloc)
}

/// Returns `part`, or `last` if `part` is empty. `last` is the last part before it that isn't
/// empty.
fn part_or<'a>(part: &'a str, last: &'a [u8]) -> &'a [u8]
    ensures { result.now ≡ part_or part.entry.now last.entry.now }
{
    match part.as_bytes() {
        [] => last,
        bytes => bytes,
    }
}

/// Returns the last part that isn't empty, or an empty one if there is none.
fn last_part<'a>(parts: &[&'a str]) -> &'a [u8]
    ensures { result.now ≡ last_part [] (map (λ part. part.now) parts.now) }
{
    let mut last = b"".as_slice();
    for part in parts {
        last = part_or(part, last);
    }
    last
}

/// Returns whether the last part of a text is `.` or `..`. Slashes after it don't count.
#[tactic(auto, unfolding(crate::specs::Rm::ends_in_dots))]
fn ends_in_dots(alloc: Global, text: &str) -> Result<bool, NoMem>
    ensures { IfOk result (λ ends. ends ≡ ends_in_dots text.now) }
{
    let parts = parts_of(alloc, text)?;
    let last = last_part(parts.as_slice());
    Ok(last == b".".as_slice() || last == b"..".as_slice())
}

/// Returns whether an operand names a path that neither `rm` nor `mv` takes away.
#[tactic(auto, unfolding(crate::specs::Rm::is_protected))]
pub(crate) fn is_protected(alloc: Global, operand: &str, path: &Path) -> Result<bool, NoMem>
    ensures { IfOk result (λ protected. protected ≡ is_protected operand.now path.now) }
{
    let dots = ends_in_dots(alloc, operand)?;
    Ok(dots || path.is_root() || path.is_null())
}

/// Returns the reason why a node of the given kind isn't removed, or `None` if it is.
fn not_removed(how: Removal, kind: Kind) -> Option<Reason>
    ensures { result ≡ not_removed how kind }
{
    match kind {
        Kind::Missing if how.forced => None,
        Kind::Missing => Some(Reason::NoSuchFile),
        Kind::Dir if how.recursive => None,
        Kind::Dir => Some(Reason::IsDirectory),
        Kind::File => None,
    }
}

/// Removes what is at a path.
fn remove_path<V: View>(
    alloc: Global,
    how: Removal,
    path: Path,
    local: &mut Local<V>,
) -> Result<Result<(), Reason>, NoMem>
    requires { is_root path ≡ false }
    ensures means { IfOk result (λ outcome. Computes local.old local.new
        (remove_path how path) outcome) }
    ensures extends { ExtendsTree local.old local.new }
{
    local.keeps_law();
    let kind = remove(alloc, how.recursive, &path, local)?;
    match not_removed(how, kind) {
        None => Ok(Ok(())),
        Some(reason) => Ok(Err(reason)),
    }
}

/// Removes what is at the path that an operand names, unless it is protected.
#[tactic(auto, unfolding(crate::specs::Rm::remove_at), using(crate::proofs::Facts::below_root))]
fn remove_at<V: View>(
    alloc: Global,
    how: Removal,
    operand: &str,
    path: Path,
    local: &mut Local<V>,
) -> Result<Result<(), Reason>, NoMem>
    ensures means { IfOk result (λ outcome. Computes local.old local.new
        (remove_at how operand.now path) outcome) }
    ensures extends { ExtendsTree local.old local.new }
{
    if is_protected(alloc, operand, &path)? {
        return Ok(Err(Reason::NotPermitted));
    }
    Ok(remove_path(alloc, how, path, local)?)
}

/// Removes what an operand names.
fn remove_operand<V: View>(
    alloc: Global,
    sid: u32,
    how: Removal,
    operand: &str,
    local: &mut Local<V>,
) -> Result<Result<(), Reason>, NoMem>
    ensures means { IfOk result (λ outcome. Computes local.old local.new
        (remove_operand sid how operand.now) outcome) }
    ensures extends { Extends sid local.old local.new }
{
    match locate(alloc, sid, operand, local)? {
        Ok(path) => Ok(remove_at(alloc, how, operand, path, local)?),
        Err(reason) => Ok(Err(reason)),
    }
}

/// Removes what each operand names in turn.
fn remove_all<V: View>(
    alloc: Global,
    sid: u32,
    how: Removal,
    operands: &[String],
    local: &mut Local<V>,
) -> Result<Done, NoMem>
    ensures means { IfOk result (λ done. Computes local.old local.new
        (in_turn (codes "rm") (remove_operand sid how) (map string_bytes operands.now)
        (nothing_done 0)) done) }
    ensures extends { Extends sid local.old local.new }
{
    let mut done = Done::nothing(alloc, 0);
    for operand in operands {
        let outcome = remove_operand(alloc, sid, how, operand, local)?;
        done.outcome("rm", operand, outcome)?;
    }
    Ok(done)
}

/// Runs `rm`: removes what each operand names.
#[tactic(auto, unfolding(crate::specs::Rm::rm))]
pub(crate) fn rm<V: View>(
    alloc: Global,
    sid: u32,
    how: Removal,
    operands: &[String],
    local: &mut Local<V>,
) -> Result<Done, NoMem>
    ensures means { IfOk result (λ done. Computes local.old local.new
        (rm sid how (map string_bytes operands.now)) done) }
    ensures extends { Extends sid local.old local.new }
{
    match operands {
        [] if how.forced => Ok(Done::nothing(alloc, 0)),
        [] => Ok(Done::usage(alloc, "rm")?),
        [_, ..] => Ok(remove_all(alloc, sid, how, operands, local)?),
    }
}
