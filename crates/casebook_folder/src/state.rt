//! States of changes.
ghost use Rattle.std.specs.Prelude.{◌≡◌};

use crate::obstacle::Obstacle;

/// How a folder is to a change.
#[derive(Clone, Copy, Debug, PartialEq, Eq)]
pub enum State {
    /// It holds the old node, or nothing at a path whose kind changes.
    Ready,
    /// It holds the new node.
    Done,
    /// It holds another node.
    Differs,
    /// Nothing can be changed at the path.
    Blocked(Obstacle),
}

impl State {
    ghost use Rattle.casebook_folder.specs.States as States;

    /// Returns whether the folder is ready.
    pub fn is_ready(self) -> bool
        ensures { result ≡ States.is_ready self }
    {
        matches!(self, State::Ready)
    }

    /// Returns whether the folder holds the new node.
    pub fn is_done(self) -> bool
        ensures { result ≡ States.is_done self }
    {
        matches!(self, State::Done)
    }
}
