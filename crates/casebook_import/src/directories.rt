//! The directories of sessions.
ghost use Rattle.std.specs.Prelude.{◌≡◌, IfOk};
ghost use Rattle.casebook_import.specs.Directories.{directory_in, elsewhere, first_directory};
ghost use Rattle.casebook_import.specs.Directories.{is_directory_after};

use crate::NoMem;
use casebook_needs::named_path;
use casebook_stand_in::Effect;
use retro_tree::{Cell, Kind, Node, Path, State, Value};
use std::alloc::Global;

/// Returns the path that stands for a directory that no state has.
#[tactic(auto, unfolding(crate::specs::Directories::elsewhere))]
pub(crate) fn elsewhere(alloc: Global) -> Result<Path, NoMem>
    ensures { IfOk result (λ path. path ≡ elsewhere) }
{
    match Path::of_names(alloc, &[".casebook", "elsewhere"])? {
        Some(path) => Ok(path),
        None => unreachable!(),
    }
}

/// Returns whether a path is a directory after a line, by the state before it.
fn is_directory_after(state: &State, effect: &Effect, path: &Path) -> Result<bool, NoMem>
    ensures { IfOk result (λ is. is ≡ is_directory_after state.now effect.now path.now) }
{
    let cell = Cell::At(path.copy()?);
    match effect.cells().get_value(&cell) {
        Some(Value::Node(node)) => Ok(matches!(node, Node::Dir)),
        Some(Value::Cwd(_)) | Some(Value::Text(_)) | Some(Value::Status(_)) | None => {
            Ok(state.kind(path) == Kind::Dir)
        }
    }
}

/// Returns the directory that a session has after a line, by its name and the state before the
/// line.
pub(crate) fn directory_in(
    alloc: Global,
    state: &State,
    effect: &Effect,
    name: &[u8],
) -> Result<Path, NoMem>
    ensures { IfOk result (λ path. path ≡ directory_in state.now effect.now name.now) }
{
    let Some(path) = named_path(alloc, &Path::root(alloc), name)? else {
        return elsewhere(alloc);
    };
    if is_directory_after(state, effect, &path)? {
        Ok(path)
    } else {
        elsewhere(alloc)
    }
}

/// Returns the directory in which a session begins, by its name.
pub(crate) fn first_directory(alloc: Global, name: &[u8]) -> Result<Path, NoMem>
    ensures { IfOk result (λ path. path ≡ first_directory name.now) }
{
    match named_path(alloc, &Path::root(alloc), name)? {
        Some(path) => Ok(path),
        None => elsewhere(alloc),
    }
}
