//! Removing what is at a path.
ghost use Rattle.std.specs.Prelude.{◌≡◌, [], ◌∷◌, true, false, IfOk, OnOk};
ghost use Rattle.retro_tree.specs.Node.{kind_of};
ghost use Rattle.retro_tree.specs.Path.{is_root};
ghost use Rattle.retro_tree.specs.Tree.{node_in};
ghost use Rattle.retro_local.specs.Runs.{Computes, ExtendsTree};
ghost use Rattle.retro_moves.specs.RemovalNotes.{RemovalNotes};
ghost use Rattle.retro_moves.specs.Trees.{removed, with_tree, without};

use retro_local::Local;
use retro_tree::{Kind, NoMem, Path, View};
use std::alloc::Global;

/// Removes what is at a path, and returns the kind of what was there. A directory is removed with
/// everything below it if `recursive` is true, and stays unchanged otherwise.
///
/// Queries the kind of the path. If it is a directory and `recursive` is true, queries its names,
/// removes each child in the same way in the order of names, and then removes the directory. Makes
/// no other queries.
pub fn remove<V: View>(
    alloc: Global,
    recursive: bool,
    path: &Path,
    local: &mut Local<'_, V>,
) -> Result<Kind, NoMem>
    requires { is_root path.now ≡ false }
    ensures means { IfOk result (λ kind. Computes local.old local.new
        (λ s. (with_tree (removed recursive path.now) s, kind_of (node_in path.now s.tree))) kind) }
    ensures notes { OnOk result (recursive ≡ true
        → RemovalNotes (path.now ∷ []) local.old.notes local.new.notes) }
    ensures extends { ExtendsTree local.old local.new }
{
    if recursive {
        remove_tree(alloc, path, local)
    } else {
        remove_file(alloc, path, local)
    }
}

/// Removes the file at a path, and returns the kind of what was there. A directory stays unchanged.
fn remove_file<V: View>(alloc: Global, path: &Path, local: &mut Local<'_, V>) -> Result<Kind, NoMem>
    requires { is_root path.now ≡ false }
    ensures means { IfOk result (λ kind. Computes local.old local.new
        (λ s. (with_tree (removed false path.now) s, kind_of (node_in path.now s.tree))) kind) }
    ensures extends { ExtendsTree local.old local.new }
{
    local.keeps_law();
    match local.kind(alloc, path)? {
        Kind::Missing => Ok(Kind::Missing),
        Kind::File => {
            local.remove(alloc, path.copy()?)?;
            Ok(Kind::File)
        }
        Kind::Dir => Ok(Kind::Dir),
    }
}

/// Removes a path and everything below it, and returns the kind of what was there.
///
/// Queries the kind of the path. If it is a directory, queries its names, removes each child in the
/// same way in the order of names, and then removes the directory. Makes no other queries.
fn remove_tree<V: View>(alloc: Global, path: &Path, local: &mut Local<'_, V>) -> Result<Kind, NoMem>
    requires { is_root path.now ≡ false }
    ensures means { IfOk result (λ kind. Computes local.old local.new
        (λ s. (with_tree (without path.now) s, kind_of (node_in path.now s.tree))) kind) }
    ensures notes { OnOk result
        (RemovalNotes (path.now ∷ []) local.old.notes local.new.notes) }
    ensures extends { ExtendsTree local.old local.new }
{
    local.keeps_law();
    match local.kind(alloc, path)? {
        Kind::Missing => Ok(Kind::Missing),
        Kind::File => {
            local.remove(alloc, path.copy()?)?;
            Ok(Kind::File)
        }
        Kind::Dir => {
            let names = local.names(alloc, path)?;
            local.keeps_law();
            let Some(names) = names else { unreachable!() };
            for name in names.names() {
                let child = path.child(alloc, name)?;
                remove_tree(alloc, &child, local)?;
            }
            local.remove(alloc, path.copy()?)?;
            Ok(Kind::Dir)
        }
    }
}
