//! The paths that operands name, and the bytes that are read from there.
ghost use Rattle.std.specs.Prelude.{◌≡◌, IfOk};
ghost use Rattle.retro_local.specs.Runs.{Computes, Extends, ExtendsTree};
ghost use Rattle.retro_utils.specs.Operands.{located};
ghost use Rattle.retro_utils.specs.Reading.{input_after, path_reading, reading, source};

use crate::input::Input;
use crate::reason::Reason;
use retro_local::Local;
use retro_tree::{Bytes, NoMem, Node, Path, Resolved, View};
use std::alloc::Global;

/// Returns the path that an operand names in a session, or the reason why it names none.
#[tactic(auto, unfolding(crate::specs::Operands::located))]
pub fn locate<V: View>(
    alloc: Global,
    sid: u32,
    operand: &str,
    local: &mut Local<V>,
) -> Result<Result<Path, Reason>, NoMem>
    ensures means { IfOk result (λ path. Computes local.old local.new
        (λ s. (s, located sid operand.now s)) path) }
    ensures extends { Extends sid local.old local.new }
{
    match local.resolve(alloc, sid, operand)? {
        Resolved::Is(path) => Ok(Ok(path)),
        Resolved::Empty => Ok(Err(Reason::NoSuchFile)),
        Resolved::LongName => Ok(Err(Reason::NameTooLong)),
    }
}

/// Returns the bytes of the file at a path, or the reason why it can't be read. `/dev/null` is
/// empty, and no query is made for it.
#[tactic(auto, unfolding(crate::specs::Reading::path_reading))]
pub(crate) fn read_path<V: View>(
    alloc: Global,
    path: &Path,
    local: &mut Local<V>,
) -> Result<Result<Bytes, Reason>, NoMem>
    ensures means { IfOk result (λ bytes. Computes local.old local.new
        (λ s. (s, path_reading path.now s)) bytes) }
    ensures extends { ExtendsTree local.old local.new }
{
    if path.is_null() {
        return Ok(Ok(Bytes::new(alloc)));
    }
    match local.node(alloc, path)? {
        Node::Missing => Ok(Err(Reason::NoSuchFile)),
        Node::Dir => Ok(Err(Reason::IsDirectory)),
        Node::File(bytes) => Ok(Ok(bytes)),
    }
}

/// Returns the bytes of the file that an operand names, or the reason why it can't be read.
#[tactic(auto, unfolding(crate::specs::Reading::reading))]
pub(crate) fn read_operand<V: View>(
    alloc: Global,
    sid: u32,
    operand: &str,
    local: &mut Local<V>,
) -> Result<Result<Bytes, Reason>, NoMem>
    ensures means { IfOk result (λ bytes. Computes local.old local.new
        (λ s. (s, reading sid operand.now s)) bytes) }
    ensures extends { Extends sid local.old local.new }
{
    match locate(alloc, sid, operand, local)? {
        Ok(path) => Ok(read_path(alloc, &path, local)?),
        Err(reason) => Ok(Err(reason)),
    }
}

/// Returns the bytes of the file that an operand names, or the reason why it can't be read. For `-`
/// reads standard input.
#[tactic(auto, unfolding(crate::specs::Reading::source, crate::specs::Reading::input_after))]
pub(crate) fn read_source<V: View>(
    alloc: Global,
    sid: u32,
    operand: &str,
    input: &mut Input,
    local: &mut Local<V>,
) -> Result<Result<Bytes, Reason>, NoMem>
    ensures means { IfOk result (λ bytes. Computes local.old local.new
        (λ s. (s, source sid operand.now input.old s)) bytes) }
    ensures input { input.new ≡ input_after operand.now input.old }
    ensures extends { Extends sid local.old local.new }
{
    if operand == "-" {
        let bytes = input.read(alloc, local)?;
        return Ok(Ok(bytes));
    }
    Ok(read_operand(alloc, sid, operand, local)?)
}
