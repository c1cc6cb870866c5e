//! How the writes of a commit are undone.
ghost use Rattle.std.specs.Prelude.{◌≡◌, true};
ghost use Rattle.retro_tree.specs.inner.CommitSteps.{undo, can_undo, keeps_law, undone_path};

use crate::entry::Entry;
use crate::previous::Previous;
use crate::state::State;
use crate::tree::Tree;
use retro_path::Path;

/// What it takes to undo one write of a commit: where it was made, and what was there before.
#[derive(Drop)]
pub(crate) enum Undo {
    /// The previous entry of a path.
    Entry(Path, Option<Entry>),
    /// The previous length of the file at a path.
    Length(Path, usize),
    /// The session didn't exist.
    Session(u32),
    /// The previous setting of a session.
    Setting(u32, Previous),
}

impl Undo {
    /// Returns whether a tree is lawful at the path of the write. Returns true for a write to a
    /// session. Takes no memory.
    pub(crate) fn keeps_law(self, tree: &Tree) -> bool
        ensures { result ≡ keeps_law (undone_path self) tree.now }
    {
        match self {
            Undo::Entry(path, _previous) => tree.keeps_law_at(path),
            Undo::Length(path, _length) => tree.keeps_law_at(path),
            Undo::Session(_sid) => true,
            Undo::Setting(_sid, _previous) => true,
        }
    }

    /// Undoes the write in a state. Takes no memory.
    pub(crate) fn apply(self, state: &mut State)
        requires { can_undo self state.old ≡ true }
        ensures { state.new ≡ undo self state.old }
    {
        match self {
            Undo::Entry(path, previous) => match previous {
                None => state.tree.erase(&path),
                Some(entry) => state.tree.replace(path, entry),
            },
            Undo::Length(path, length) => state.tree.cut(&path, length),
            Undo::Session(sid) => state.sessions.remove(sid),
            Undo::Setting(sid, previous) => state.sessions.restore(sid, previous),
        }
    }
}
