//! Answers to queries of a state.
ghost use Rattle.std.specs.Prelude.{◌≡◌, ◌↔◌, IfOk, IsTrue};

use crate::kind::Kind;
use crate::node::Node;
use crate::permit::Permit;
use crate::user::User;
use retro_path::{Listing, NoMem, Path, Text};

/// The answer to a query. Its variant has the query's name.
#[derive(Drop, Clone, PartialEq, Eq)]
pub enum Answer {
    /// The kind of the node.
    Kind(Kind),
    /// The node.
    Bytes(Node),
    /// The names of the children in byte order, or `None` if the path isn't a directory.
    Names(Option<Listing>),
    /// Whether the bytes can be written, and if not, why.
    CanWrite(Permit),
    /// The entry of the login name, or `None` if it has none.
    User(Option<User>),
    /// The variable's value, or `None` if it isn't set.
    Var(Option<Text>),
    /// The session's directory.
    Cwd(Path),
    /// The session's status.
    Status(u8),
}

impl Answer {
    /// Returns a copy.
    pub fn copy(&self) -> Result<Answer, NoMem>
        ensures { IfOk result (λ copy. copy ≡ self.now) }
    {
        self.clone()
    }

    /// Returns whether this is the same answer as another.
    #[tactic(auto, using(crate::proofs::Sames::sames))]
    pub fn is_same(&self, other: &Answer) -> bool
        ensures { IsTrue result ↔ (self.now ≡ other.now) }
    {
        match (self, other) {
            (Answer::Kind(x), Answer::Kind(y)) => *x == *y,
            (Answer::Bytes(x), Answer::Bytes(y)) => x.is_same(y),
            (Answer::Names(Some(x)), Answer::Names(Some(y))) => x == y,
            (Answer::CanWrite(x), Answer::CanWrite(y)) => *x == *y,
            (Answer::User(Some(x)), Answer::User(Some(y))) => {
                x.number == y.number && x.home == y.home
            }
            (Answer::Var(Some(x)), Answer::Var(Some(y))) => x == y,
            (Answer::Names(None), Answer::Names(None))
            | (Answer::User(None), Answer::User(None))
            | (Answer::Var(None), Answer::Var(None)) => true,
            (Answer::Cwd(x), Answer::Cwd(y)) => x == y,
            (Answer::Status(x), Answer::Status(y)) => *x == *y,
            _ => false,
        }
    }
}
