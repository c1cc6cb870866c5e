//! Moving a directory with everything below it.
ghost use Rattle.std.specs.Prelude.{◌≡◌, [], true, IfOk, OnOk};
ghost use Rattle.retro_tree.specs.Lawful.{IsLawful, may_put};
ghost use Rattle.retro_tree.specs.State.{put_node};
ghost use Rattle.retro_tree.specs.Tree.{node_in};
ghost use Rattle.retro_tree.specs.declared.change.Change.TheVariants.{Put};
ghost use Rattle.retro_tree.specs.declared.note.Note.TheVariants.{Made};
ghost use Rattle.retro_local.specs.Runs.{Always, ExtendsTree, Relates, Transforms};
ghost use Rattle.retro_local.specs.Trace.{noted};
ghost use Rattle.retro_moves.specs.inner.Move.{CanCopy, IsCopy};
ghost use Rattle.retro_moves.specs.MoveNotes.{MoveNotes, NodeNotes};
ghost use Rattle.retro_moves.specs.inner.Removal.{OfTrees};
ghost use Rattle.retro_moves.specs.Trees.{CanMove, moved, with_tree};

use retro_local::Local;
use retro_tree::{Change, NoMem, Node, Path, View};
use std::alloc::Global;

/// Moves a directory with everything below it to another path. That path must be missing or an
/// empty directory, which is replaced.
///
/// Queries the names of the directory and puts it at its new path. Then does the same with each
/// path below it, in the order of names, after querying what it is. Then removes the old paths,
/// from the last to the first. Makes no other queries.
pub fn move_dir<V: View>(
    alloc: Global,
    from: &Path,
    to: &Path,
    local: &mut Local<'_, V>,
) -> Result<(), NoMem>
    requires { Always (λ s. CanMove from.now to.now s.tree) local.old }
    ensures means { OnOk result
        (Transforms local.old local.new (with_tree (moved from.now to.now))) }
    ensures notes { OnOk result (IsLawful local.old.start
        → MoveNotes from.now to.now local.old.notes local.new.notes) }
    ensures extends { ExtendsTree local.old local.new }
{
    // For the prover: the contract of `names` says that the names of the new path can be names of
    // files.
    let _names = to.names();
    let mut paths = copy_tree(alloc, from, to, Node::Dir, local)?;
    while let Some(path) = paths.pop() {
        put(alloc, path, Node::Missing, local)?;
    }
    Ok(())
}

/// Puts a node and everything below it at another path. Returns the old paths, each directory
/// before the paths below it.
fn copy_tree<V: View>(
    alloc: Global,
    from: &Path,
    to: &Path,
    node: Node,
    local: &mut Local<'_, V>,
) -> Result<Vec<Path>, NoMem>
    requires can { Always (λ s. CanCopy from.now to.now s.tree) local.old }
    requires here { Always (λ s. node_in from.now s.tree ≡ node) local.old }
    ensures means { IfOk result (λ paths. Relates
        (OfTrees (IsCopy from.now to.now [] paths.items)) local.old local.new) }
    ensures notes { IfOk result (λ paths. IsLawful local.old.start
        → NodeNotes from.now to.now node paths.items local.old.notes local.new.notes) }
    ensures extends { ExtendsTree local.old local.new }
{
    local.keeps_law();
    let mut paths = Vec::new(alloc);
    match node {
        Node::Dir => {
            let Some(names) = local.names(alloc, from)? else {
                // Never reached in a lawful state: a directory has names there.
                local.keeps_law();
                return Ok(paths);
            };
            put(alloc, to.copy()?, Node::Dir, local)?;
            paths.push(from.copy()?)?;
            for name in names.names() {
                let source = from.child(alloc, name)?;
                let target = to.child(alloc, name)?;
                let node = local.node(alloc, &source)?;
                let mut more = copy_tree(alloc, &source, &target, node, local)?;
                paths.append(&mut more)?;
            }
            Ok(paths)
        }
        node => {
            put(alloc, to.copy()?, node, local)?;
            paths.push(from.copy()?)?;
            Ok(paths)
        }
    }
}

/// Puts a node at a path. `Missing` removes what the path holds.
#[tactic(auto, unfolding(retro_tree::specs::Change::may_make, retro_tree::specs::Change::apply))]
fn put<V: View>(
    alloc: Global,
    path: Path,
    node: Node,
    local: &mut Local<'_, V>,
) -> Result<(), NoMem>
    requires { Always (λ s. may_put path node s.tree ≡ true) local.old }
    ensures means { OnOk result (Transforms local.old local.new (put_node path node)) }
    ensures note { OnOk result (local.new ≡ noted local.old (Made (Put path node))) }
    ensures extends { ExtendsTree local.old local.new }
{
    local.make(alloc, Change::Put(path, node))
}
