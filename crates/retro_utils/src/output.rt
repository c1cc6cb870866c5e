//! Files opened for output and written to (XCU 2.7).
ghost use Rattle.std.specs.Prelude.{◌≡◌, false, IfOk, OnOk};
ghost use Rattle.retro_tree.specs.Path.{is_null};
ghost use Rattle.retro_tree.specs.State.{permit_of};
ghost use Rattle.retro_tree.specs.declared.permit.Permit.TheVariants.{Yes};
ghost use Rattle.retro_local.specs.Runs.{Always, Computes, ExtendsTree, Transforms};
ghost use Rattle.retro_utils.specs.Output.{appended, opened, prepared};

use crate::mode::Mode;
use crate::reason::{Reason, refusal};
use retro_local::Local;
use retro_tree::{Bytes, NoMem, Path, View};
use std::alloc::Global;

/// Creates a file if it is missing. Empties it in the mode `Truncate`.
fn prepare<V: View>(
    alloc: Global,
    mode: Mode,
    path: Path,
    local: &mut Local<V>,
) -> Result<(), NoMem>
    requires apart { is_null path ≡ false }
    requires permit { Always (λ s. permit_of path 0 s ≡ Yes) local.old }
    ensures means { OnOk result (Transforms local.old local.new (prepared mode path)) }
    ensures extends { ExtendsTree local.old local.new }
{
    match mode {
        Mode::Truncate => local.put_file(alloc, path, Bytes::new(alloc)),
        Mode::Append => local.grow(alloc, path, Bytes::new(alloc)),
    }
}

/// Opens a file for output, as `>` and `>>` do. Makes no query for `/dev/null`.
#[tactic(auto, unfolding(crate::specs::Output::opened), using(crate::proofs::Facts::granted))]
pub fn open<V: View>(
    alloc: Global,
    mode: Mode,
    path: &Path,
    local: &mut Local<V>,
) -> Result<Result<(), Reason>, NoMem>
    ensures means { IfOk result (λ outcome. Computes local.old local.new
        (opened mode path.now) outcome) }
    ensures extends { ExtendsTree local.old local.new }
{
    if path.is_null() {
        return Ok(Ok(()));
    }
    match refusal(local.can_write(alloc, path, 0)?) {
        Some(reason) => Ok(Err(reason)),
        None => {
            prepare(alloc, mode, path.copy()?, local)?;
            Ok(Ok(()))
        }
    }
}

/// Appends bytes to an open file. `/dev/null` discards them, and no query is made for it.
#[tactic(auto, unfolding(crate::specs::Output::appended), using(crate::proofs::Facts::granted))]
pub fn append<V: View>(
    alloc: Global,
    text: &Bytes,
    path: &Path,
    local: &mut Local<V>,
) -> Result<Result<(), Reason>, NoMem>
    ensures means { IfOk result (λ outcome. Computes local.old local.new
        (appended text.now path.now) outcome) }
    ensures extends { ExtendsTree local.old local.new }
{
    if path.is_null() {
        return Ok(Ok(()));
    }
    match refusal(local.can_write(alloc, path, text.len())?) {
        Some(reason) => Ok(Err(reason)),
        None => {
            local.grow(alloc, path.copy()?, text.copy()?)?;
            Ok(Ok(()))
        }
    }
}
