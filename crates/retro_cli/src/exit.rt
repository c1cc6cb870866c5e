//! Exits of the program: their statuses, and their lines on standard error.
ghost use Rattle.std.specs.Prelude.{◌≡◌, true, Ok, OnOk};
ghost use Rattle.std.specs.Io.KnownBytes.{Appends};
ghost use Rattle.retro_cli.specs.Exit.{exit_of, has_answered, message_of, status_of};

use crate::ending::Ending;
use crate::stop::Stop;
use std::io;
use std::io::Write;

/// How the program ends.
#[derive(Clone, Copy, Debug, PartialEq, Eq)]
pub enum Exit {
    /// The whole answer was written.
    Done,
    /// The log isn't a recording of its lines, and the whole answer `no` was written.
    CheckNo,
    /// The command line, the document or the request is refused, with the refusal's number: 31 for
    /// a bad command line, 8 to 16 for a document, 21 for an edit of a number that no line has, 22
    /// for cuts that are empty or have a zero, 23 for too many workers, 26 for two different edits
    /// of a line. Nothing was written.
    Refused(u8),
    /// Allocation failed. Nothing was written.
    OutOfMemory,
    /// The input couldn't be read to its end. Nothing was written.
    ReadFailed,
    /// The whole answer couldn't be written. A part of its start may have been written.
    WriteFailed,
}

impl Exit {
    /// Returns how the program ends after a run.
    pub(crate) fn of(run: Result<Ending, Stop>) -> Exit
        ensures { result ≡ exit_of run }
    {
        match run {
            Ok(Ending::Done) => Exit::Done,
            Ok(Ending::CheckNo) => Exit::CheckNo,
            Err(Stop::NoMem) => Exit::OutOfMemory,
            Err(Stop::Refused(number)) => Exit::Refused(number),
            Err(Stop::ReadFailed) => Exit::ReadFailed,
            Err(Stop::WriteFailed) => Exit::WriteFailed,
        }
    }

    /// Returns the exit status of the process: 0 if the request was answered, 1 if it was refused,
    /// 2 if memory ran out, 3 if reading or writing failed, 4 if the answer to a check is `no`.
    pub fn status(self) -> u8
        ensures { result ≡ status_of self }
    {
        match self {
            Exit::Done => 0,
            Exit::Refused(_) => 1,
            Exit::OutOfMemory => 2,
            Exit::ReadFailed | Exit::WriteFailed => 3,
            Exit::CheckNo => 4,
        }
    }

    /// Writes the line for standard error. Nothing is written if the program wrote an answer. No
    /// memory is allocated.
    pub fn write_message<W: Write>(self, writer: &mut W) -> io::Result<()>
        ensures message { OnOk result
            (Appends (W.contents writer.old) (W.contents writer.new) (message_of self)) }
        ensures done { has_answered self ≡ true → (result ≡ Ok tt) × (writer.new ≡ writer.old) }
    {
        match self {
            Exit::Done | Exit::CheckNo => Ok(()),
            Exit::Refused(number) => writeln!(writer, "retro: refused {number}"),
            Exit::OutOfMemory => writeln!(writer, "retro: out of memory"),
            Exit::ReadFailed => writeln!(writer, "retro: read failed"),
            Exit::WriteFailed => writeln!(writer, "retro: write failed"),
        }
    }
}
