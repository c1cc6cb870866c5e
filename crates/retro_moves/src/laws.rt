//! Laws about removals and moves, for the proofs of crates above. A law is a function without a
//! body whose contract is the law.
ghost use Rattle.std.specs.Prelude.{◌≡◌, ℕ, List, false};
ghost use Rattle.retro_tree.specs.Lawful.{IsLawfulTree};
ghost use Rattle.retro_tree.specs.Node.{is_dir};
ghost use Rattle.retro_tree.specs.Path.{PathValue};
ghost use Rattle.retro_tree.specs.Tree.{Tree, node_in, put};
ghost use Rattle.retro_tree.specs.declared.node.Node.TheVariants.{Missing, File};
ghost use Rattle.retro_moves.specs.Trees.{Apart, moved, without};

/// States that in a lawful tree, removing a path that isn't a directory and everything below it
/// removes that path alone. Removing a missing path changes nothing.
#[tactic(auto, using(crate::proofs::MovedFiles::single))]
pub fn removals_of_files()
    ensures file { (p : PathValue) (tree : Tree)
        → IsLawfulTree tree → is_dir (node_in p tree) ≡ false
        → without p tree ≡ put p Missing tree }
    ensures missing { (p : PathValue) (tree : Tree)
        → IsLawfulTree tree → node_in p tree ≡ Missing → without p tree ≡ tree }
{}

/// States that in a lawful tree, moving a file to a path that isn't a directory puts its bytes
/// there and removes its old path.
#[tactic(auto, using(crate::proofs::MovedFiles::single))]
pub fn moves_of_files()
    ensures { (p q : PathValue) (bytes : List ℕ) (tree : Tree)
        → IsLawfulTree tree → Apart p q → node_in p tree ≡ File bytes
        → is_dir (node_in q tree) ≡ false
        → moved p q tree ≡ put p Missing (put q (File bytes) tree) }
{}
