//! Why there is no answer.
ghost use Rattle.std.specs.Prelude.{◌≡◌};
ghost use Rattle.casebook_repairs.specs.declared.stop.Stop.TheVariants as stops;

use crate::NoMem;
use crate::documents::Hindrance;
use crate::searched::SearchedPart;
use casebook_about::AboutFault;
use casebook_folder_cli::FileFault;
use casebook_recorder_cli::RecorderFault;
use casebook_recording::CaseRefusal;
use casebook_request::Problem;
use casebook_text::ListFault;
use retro_log::Refusal;

/// Why there is no answer. Names of documents are those of the command line.
#[derive(Clone, Copy, Debug, Drop, PartialEq, Eq)]
pub enum Stop<'a> {
    /// The command line is refused.
    BadWords(Problem),
    /// What an option gives isn't a regular expression, or is one that is too large.
    BadPattern(SearchedPart),
    /// No line is of a session with the name that is asked for.
    NoUser,
    /// A document isn't a log.
    BadLog(&'a str, Refusal),
    /// A document that should be text isn't UTF-8.
    BadText(&'a str),
    /// A document doesn't hold names and times.
    BadAbout(&'a str, AboutFault),
    /// The time of the line with this number isn't in one of the years -9999 to 9999.
    BadTime(u32),
    /// The list of lines to cancel is refused.
    BadList(ListFault),
    /// No line has the number that is asked about.
    NoLine(u32),
    /// The line with this number is cancelled, so it prints nothing.
    LineCancelled(u32),
    /// The line with this number stands as it was observed, so it isn't known what it prints.
    UnknownOutput(u32),
    /// There would be nothing at the path that is asked for.
    NoFile,
    /// There would be a directory at the path that is asked for.
    NotAFile,
    /// There would be a link, a device or a file at the path that is asked for which isn't kept.
    NotKept,
    /// The repair of the log is refused, with the refusal's number.
    BadRepair(u8),
    /// Allocation failed.
    OutOfMemory,
    /// A document or a folder couldn't be read.
    ReadFailed(&'a str, Hindrance),
    /// What is named as a folder isn't one.
    NotADirectory(&'a str),
    /// A file isn't a stream of tar of which a snapshot can be taken, not the document of one, or
    /// not a table of a script.
    BadFile(&'a str, FileFault),
    /// An undo file couldn't be read or written.
    UndoFailed(&'a str),
    /// What is named as an undo file isn't one.
    BadUndo(&'a str),
    /// An undo file has other rows than the plan.
    OtherUndo(&'a str),
    /// A path of a folder holds something else than when it was looked at. Nothing was changed.
    FolderChanged(&'a str),
    /// A part of a folder is restored, and then a step failed.
    Unfinished(&'a str),
    /// A document has no log: it isn't a case, or what it says can't be.
    BadCase(&'a str, CaseRefusal),
    /// The lines of a case can't be shown as they were typed.
    Unshown(&'a str),
    /// There is no spool with the name, it didn't take a record, or it has no case.
    Recorder(&'a str, RecorderFault),
}

impl<'a> From<NoMem> for Stop<'a> {
    ghost from_gives = { λ _ stop. stop ≡ stops.OutOfMemory };

    fn from(_error: NoMem) -> Stop<'a> {
        Stop::OutOfMemory
    }
}
