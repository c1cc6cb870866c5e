//! What queries are about.
ghost use Rattle.std.specs.Prelude.{◌≡◌, IfOk};
ghost use Rattle.casebook_summary.specs.Subjects.{subject_of};

use crate::NoMem;
use retro_tree::{Ask, Path, VarName};
use std::alloc::Global;

/// What a query is about.
#[derive(Drop, PartialEq, Eq, PartialOrd, Ord)]
pub enum Subject {
    /// What is at a path. A look-up of a user is about the password file.
    At(Path),
    /// The session's directory.
    Directory,
    /// A variable of the session.
    Variable(VarName),
    /// The session's status.
    Status,
    /// No query: an edit replaces the line's text.
    Text,
    /// No query: the line is run again with all others.
    Again,
}

impl Subject {
    /// Returns what a query is about.
    pub(crate) fn of(alloc: Global, ask: &Ask) -> Result<Subject, NoMem>
        ensures { IfOk result (λ subject. subject ≡ subject_of ask.now) }
    {
        match ask {
            Ask::Kind(path) | Ask::Bytes(path) | Ask::Names(path) | Ask::CanWrite(path, _) => {
                Ok(Subject::At(path.copy()?))
            }
            Ask::User(_) => Ok(Subject::At(Path::passwd(alloc)?)),
            Ask::VarOf(_, name) => Ok(Subject::Variable(name.copy()?)),
            Ask::CwdOf(_) => Ok(Subject::Directory),
            Ask::StatusOf(_) => Ok(Subject::Status),
        }
    }

    /// Returns a copy.
    pub(crate) fn copy(&self) -> Result<Subject, NoMem>
        ensures { IfOk result (λ copy. copy ≡ self.now) }
    {
        match self {
            Subject::At(path) => Ok(Subject::At(path.copy()?)),
            Subject::Directory => Ok(Subject::Directory),
            Subject::Variable(name) => Ok(Subject::Variable(name.copy()?)),
            Subject::Status => Ok(Subject::Status),
            Subject::Text => Ok(Subject::Text),
            Subject::Again => Ok(Subject::Again),
        }
    }
}
