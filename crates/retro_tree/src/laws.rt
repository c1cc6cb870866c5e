//! Laws about lawful states, for the proofs of crates above. A law is a function without a body
//! whose contract is the law.
ghost use Rattle.std.specs.Prelude.{◌≡◌, ◌≤◌, IsTrue, true, false, ℕ, List, [], length, min};
ghost use Rattle.retro_tree.specs.Name.{AllNames};
ghost use Rattle.std.specs.FinMap as map;
ghost use Rattle.retro_tree.specs.Path.{PathValue, is_null, is_root, parent_of};
ghost use Rattle.retro_tree.specs.Node.{file_limit, is_dir};
ghost use Rattle.retro_tree.specs.Tree.{Tree, node_in};
ghost use Rattle.retro_tree.specs.Ask.{names_in};
ghost use Rattle.retro_tree.specs.State.{put_node, grow_file, put_status, permit_of, SameSessions};
ghost use Rattle.retro_tree.specs.Limits.{IsWithinLimits, within_limits};
ghost use Rattle.retro_tree.specs.Lawful.{IsLawful, IsLawfulTree, KeepsTreeLaw, is_lawful};
ghost use Rattle.retro_tree.specs.Lawful.{is_lawful_tree};
ghost use Rattle.retro_tree.specs.Change.{IsLawfulChange, apply, has_its_session, may_make};
ghost use Rattle.retro_tree.specs.declared.change.Change.{Change};
ghost use Rattle.retro_tree.specs.declared.change.Change.TheVariants.{Put, Grow};
ghost use Rattle.retro_tree.specs.declared.node.Node.TheVariants.{Missing, Dir, File};
ghost use Rattle.retro_tree.specs.declared.permit.Permit.TheVariants.{Yes};
ghost use Rattle.retro_tree.specs.declared.state.State.{State};

/// States that a tree is lawful exactly if its root is a directory, the parent of each other path
/// with a node is a directory, none of these paths is at `/dev/null` or below it, their names can
/// be names, and files are within the limit.
#[tactic(auto, using(crate::proofs::TreeLaw::tree_law))]
pub fn lawful_trees()
    ensures sound { (tree : Tree) → IsLawfulTree tree → KeepsTreeLaw tree }
    ensures complete { (tree : Tree) → KeepsTreeLaw tree → IsLawfulTree tree }
{}

/// States that `is_lawful_tree` is true exactly if the tree is lawful.
#[tactic(auto, using(crate::proofs::WholeLaw::whole_tree))]
pub fn lawful_trees_pass()
    ensures sound { (tree : Tree) → IsTrue (is_lawful_tree tree) → IsLawfulTree tree }
    ensures complete { (tree : Tree) → IsLawfulTree tree → IsTrue (is_lawful_tree tree) }
{}

/// States that `is_lawful` is true exactly if the state is lawful.
#[tactic(auto, using(crate::proofs::WholeLaw::whole_state))]
pub fn lawful_states_pass()
    ensures sound { (s : State) → IsTrue (is_lawful s) → IsLawful s }
    ensures complete { (s : State) → IsLawful s → IsTrue (is_lawful s) }
{}

/// States that `within_limits` is true exactly if the state is within the limits, and that every
/// lawful state is.
#[tactic(auto, using(crate::proofs::WholeLaw::whole_limits))]
pub fn lawful_states_are_within_limits()
    ensures sound { (s : State) → IsTrue (within_limits s) → IsWithinLimits s }
    ensures complete { (s : State) → IsWithinLimits s → IsTrue (within_limits s) }
    ensures lawful { (s : State) → IsLawful s → IsWithinLimits s }
{}

/// States that a lawful state stays lawful if a file within the limit, or an empty one, is put at a
/// path that can be written to.
#[tactic(auto, using(crate::proofs::Keeping::keeping))]
pub fn lawful_files()
    ensures put { (p : PathValue) (bytes : List ℕ) (n : ℕ) (s : State)
        → IsLawful s → AllNames p → is_null p ≡ false → permit_of p n s ≡ Yes
        → length bytes ≤ file_limit → IsLawful (put_node p (File bytes) s) }
    ensures empty { (p : PathValue) (n : ℕ) (s : State)
        → IsLawful s → AllNames p → is_null p ≡ false → permit_of p n s ≡ Yes
        → IsLawful (put_node p (File []) s) }
{}

/// States that a lawful state stays lawful if a file grows by bytes that can be appended to it.
#[tactic(auto, using(crate::proofs::Keeping::keeping))]
pub fn lawful_growths()
    ensures { (p : PathValue) (bytes : List ℕ) (s : State)
        → IsLawful s → AllNames p → is_null p ≡ false → permit_of p (length bytes) s ≡ Yes
        → IsLawful (grow_file p bytes s) }
{}

/// States that a lawful state stays lawful if a session's status is set.
#[tactic(auto, using(crate::proofs::Keeping::keeping))]
pub fn lawful_statuses()
    ensures { (sid status : ℕ) (s : State)
        → IsLawful s → status ≤ 255 → IsLawful (put_status sid status s) }
{}

/// States that in a lawful state a change is lawful exactly if its session exists and `may_make` is
/// true. The state after a lawful change is lawful, and so is the state after a change for which
/// `may_make` is true.
#[tactic(auto, using(crate::proofs::Allowed::lawful_changes))]
pub fn lawful_changes()
    ensures sound { (c : Change) (s : State) → IsLawful s → has_its_session c s ≡ true
        → may_make c s ≡ true → IsLawfulChange c s }
    ensures complete { (c : Change) (s : State) → IsLawfulChange c s → may_make c s ≡ true }
    ensures kept { (c : Change) (s : State) → IsLawful s → may_make c s ≡ true
        → IsLawful (apply c s) }
    ensures session { (c : Change) (s : State)
        → IsLawfulChange c s → has_its_session c s ≡ true }
    ensures after { (c : Change) (s : State) → IsLawfulChange c s → IsLawful (apply c s) }
{}

/// States that `may_make` is true for putting a file within the limit, or an empty one, at a path
/// that can be written to, and for a growth by bytes that can be appended.
#[tactic(auto, using(crate::proofs::MayMake::may_making))]
pub fn file_changes_pass()
    ensures put { (p : PathValue) (bytes : List ℕ) (n : ℕ) (s : State)
        → IsLawful s → AllNames p → is_null p ≡ false → permit_of p n s ≡ Yes
        → length bytes ≤ file_limit → may_make (Put p (File bytes)) s ≡ true }
    ensures empty { (p : PathValue) (n : ℕ) (s : State)
        → IsLawful s → AllNames p → is_null p ≡ false → permit_of p n s ≡ Yes
        → may_make (Put p (File [])) s ≡ true }
    ensures growth { (p : PathValue) (bytes : List ℕ) (s : State)
        → IsLawful s → AllNames p → is_null p ≡ false → permit_of p (length bytes) s ≡ Yes
        → may_make (Grow p bytes) s ≡ true }
{}

/// States that `may_make` is true for putting a directory where the parent is one, except at
/// `/dev/null`.
#[tactic(auto, using(crate::proofs::MayMake::may_making))]
pub fn directory_changes_pass()
    ensures { (p : PathValue) (s : State)
        → IsLawful s → AllNames p → is_null p ≡ false → node_in (parent_of p) s.tree ≡ Dir
        → may_make (Put p Dir) s ≡ true }
{}

/// States that `may_make` is true for removing a path that isn't the root and has no children. In a
/// lawful state only directories have children.
#[tactic(auto, using(crate::proofs::MayMake::may_making))]
pub fn removals_pass()
    ensures childless { (p : PathValue) (s : State)
        → IsLawful s → is_root p ≡ false → names_in p s.tree ≡ []
        → may_make (Put p Missing) s ≡ true }
    ensures file { (p : PathValue) (s : State)
        → IsLawful s → is_dir (node_in p s.tree) ≡ false → names_in p s.tree ≡ [] }
{}

/// States that a change removes no session, and creates none if its own session exists.
#[tactic(auto, using(crate::proofs::KeptSessions::changed_sessions))]
pub fn changes_keep_sessions()
    ensures same { (c : Change) (s : State)
        → has_its_session c s ≡ true → SameSessions (apply c s) s }
    ensures kept { (c : Change) (s : State) (sid : ℕ)
        → map.contains_key s.sessions sid ≡ true
        → map.contains_key (apply c s).sessions sid ≡ true }
{}

/// States that a permit for more than 2^32 - 1 bytes is the permit for 2^32 - 1 bytes, because both
/// exceed the limit of a file.
#[tactic(auto, using(crate::proofs::MayMake::permit_clamped))]
pub fn permits_are_clamped()
    ensures { (p : PathValue) (n : ℕ) (s : State)
        → permit_of p (min n 4294967295) s ≡ permit_of p n s }
{}
