//! Queries about the state in which a line begins.
ghost use Rattle.std.specs.Prelude.{◌≡◌, IfOk};
ghost use Rattle.casebook_needs.specs.Query.{ask_of};

use crate::NoMem;
use retro_path::{Path, VarName};
use retro_tree::Ask;

/// A query about the state in which a line begins. The session is the line's.
#[derive(Drop, Clone, PartialEq, Eq, PartialOrd, Ord)]
pub enum Query {
    /// Which node is at a path?
    Bytes(Path),
    /// Which children does a directory have?
    Names(Path),
    /// Which value does a variable of the session have?
    Var(VarName),
    /// Which status does the session have?
    Status,
    /// Which directory is the session in?
    Cwd,
}

impl Query {
    /// Returns a copy.
    pub fn copy(&self) -> Result<Query, NoMem>
        ensures { IfOk result (λ copy. copy ≡ self.now) }
    {
        self.clone()
    }

    /// Returns the query as one about a session.
    pub fn into_ask(self, session: u32) -> Ask
        ensures { result ≡ ask_of session self }
    {
        match self {
            Query::Bytes(path) => Ask::Bytes(path),
            Query::Names(path) => Ask::Names(path),
            Query::Var(name) => Ask::VarOf(session, name),
            Query::Status => Ask::StatusOf(session),
            Query::Cwd => Ask::CwdOf(session),
        }
    }
}
