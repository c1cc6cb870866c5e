//! Exits of the program.
ghost use Rattle.std.specs.Prelude.{◌≡◌, IfOk};
ghost use Rattle.casebook_cli.specs.Exit.{status_of, stop_status};
ghost use Rattle.casebook_cli.specs.Messages.{message_of};

use crate::NoMem;
use crate::messages::message_of;
use casebook_repairs::Stop;
use casebook_text::SafeLine;
use std::alloc::Global;

/// How the program ends.
#[derive(Clone, Copy, Debug, Drop, PartialEq, Eq)]
pub enum Exit<'a> {
    /// The whole answer was written.
    Done,
    /// The whole answer was written. It says that what was asked about isn't in order.
    No,
    /// There is no answer. Nothing was written.
    Stopped(Stop<'a>),
    /// The whole answer couldn't be written. A part of its start may have been written.
    WriteFailed,
}

/// Returns the exit status of the process: 1 if words, documents or a folder are refused, 2 if
/// memory ran out, 3 if a read or a write failed.
fn stop_status(stop: Stop<'_>) -> u8
    ensures { result ≡ stop_status stop.entry }
{
    match stop {
        Stop::BadWords(_)
        | Stop::BadPattern(_)
        | Stop::NoUser
        | Stop::BadLog(_, _)
        | Stop::BadText(_)
        | Stop::BadAbout(_, _)
        | Stop::BadTime(_)
        | Stop::BadList(_)
        | Stop::NoLine(_)
        | Stop::LineCancelled(_)
        | Stop::UnknownOutput(_)
        | Stop::NoFile
        | Stop::NotAFile
        | Stop::NotKept
        | Stop::BadRepair(_)
        | Stop::NotADirectory(_)
        | Stop::BadFile(_, _)
        | Stop::BadUndo(_)
        | Stop::OtherUndo(_)
        | Stop::FolderChanged(_)
        | Stop::BadCase(_, _)
        | Stop::Unshown(_) => 1,
        Stop::OutOfMemory => 2,
        Stop::ReadFailed(_, _) | Stop::UndoFailed(_) | Stop::Unfinished(_) => 3,
        Stop::Recorder(_, fault) if fault.is_refusal() => 1,
        Stop::Recorder(_, _) => 3,
    }
}

impl<'a> Exit<'a> {
    /// Returns the exit status of the process: 0 if the request was answered, 1 if the command line
    /// or a document was refused, 2 if memory ran out, 3 if reading or writing failed, and 4 if the
    /// answer is that what was asked about isn't in order.
    pub fn status(self) -> u8
        ensures { result ≡ status_of self.entry }
    {
        match self {
            Exit::Done => 0,
            Exit::No => 4,
            Exit::Stopped(stop) => stop_status(stop),
            Exit::WriteFailed => 3,
        }
    }

    /// Returns the line for standard error, without the newline, or an empty line if the program
    /// wrote an answer.
    pub fn message(self, alloc: Global) -> Result<SafeLine, NoMem>
        ensures { IfOk result (λ line. line ≡ message_of self.entry) }
    {
        message_of(alloc, self)
    }
}
