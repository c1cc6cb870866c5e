//! Why there is no spool, why a record isn't taken, or why there is no case.
ghost use Rattle.std.specs.Prelude.{◌≡◌, ◌++◌, IfOk, IsTrue, OnOk, decimal};
ghost use Rattle.std.specs.List.{list_all};
ghost use Rattle.casebook_text.specs.SafeText.{is_printable};
ghost use Rattle.casebook_recorder_cli.specs.Faults.{fault_line, field_words, is_refusal};
ghost use Rattle.casebook_recorder_cli.specs.Faults.{lines_words, of_case, of_observing};
ghost use Rattle.casebook_recorder_cli.specs.Faults.{of_opening, of_record, open_words};
ghost use Rattle.casebook_recorder_cli.specs.Faults.{record_words};

use crate::NoMem;
use crate::case_line::case_line;
use crate::spools::OpenError;
use casebook_case::CaseFault;
use casebook_observe::{ObserveError, WatchError};
use casebook_record::{Field, RecordError};
use casebook_text::SafeLine;
use std::alloc::Global;

/// Why there is no spool, why a record isn't taken, or why there is no case.
#[derive(Clone, Copy, Debug, Drop, PartialEq, Eq)]
pub enum RecorderFault {
    /// Allocation failed.
    NoMem,
    /// The spool or what it watches can't be opened.
    Open(OpenError),
    /// What was sent is longer than a record may be.
    TooLong,
    /// What was sent says that it is of another user than its sender.
    Forged,
    /// What was sent isn't a record.
    Record(RecordError),
    /// The first look of the spool can't be read.
    First,
    /// A row of the lines of the spool is damaged: so many rows after this byte.
    Lines(u64, usize),
    /// The watched folders can't be looked at.
    Unseen,
    /// The watched folders hold too much to be looked at in time.
    TooSlow,
    /// The spool can't be read or written.
    Unwritten,
    /// There is no case.
    Case(CaseFault),
}

impl From<OpenError> for RecorderFault {
    ghost from_gives = { λ error fault. fault ≡ of_opening error };

    fn from(error: OpenError) -> RecorderFault {
        match error {
            OpenError::NoMem => RecorderFault::NoMem,
            other => RecorderFault::Open(other),
        }
    }
}

impl From<RecordError> for RecorderFault {
    ghost from_gives = { λ error fault. fault ≡ of_record error };

    fn from(error: RecordError) -> RecorderFault {
        match error {
            RecordError::NoMem => RecorderFault::NoMem,
            other => RecorderFault::Record(other),
        }
    }
}

impl From<ObserveError> for RecorderFault {
    ghost from_gives = { λ error fault. fault ≡ of_observing error };

    fn from(error: ObserveError) -> RecorderFault {
        match error {
            ObserveError::NoMem => RecorderFault::NoMem,
            ObserveError::Record(error) => RecorderFault::Record(error),
            ObserveError::First => RecorderFault::First,
            ObserveError::Lines(at, row) => RecorderFault::Lines(at, row),
            ObserveError::Watched(WatchError::TooSlow) => RecorderFault::TooSlow,
            ObserveError::Watched(_) => RecorderFault::Unseen,
            ObserveError::Spool(_) => RecorderFault::Unwritten,
        }
    }
}

impl From<CaseFault> for RecorderFault {
    ghost from_gives = { λ error fault. fault ≡ of_case error };

    fn from(error: CaseFault) -> RecorderFault {
        match error {
            CaseFault::NoMem => RecorderFault::NoMem,
            other => RecorderFault::Case(other),
        }
    }
}

/// Returns why a spool can't be opened, in words.
#[tactic(auto, unfolding(crate::specs::Faults::open_words))]
fn open_words(error: OpenError) -> &'static str
    ensures value { result.now ≡ open_words error }
    ensures printable { IsTrue (list_all is_printable result.now) }
{
    match error {
        OpenError::NoMem => "out of memory",
        OpenError::Missing => "there is no such spool",
        OpenError::Exists => "there is something with this name already",
        OpenError::Busy => "somebody else has this spool",
        OpenError::Damaged => "its list of folders can't be read",
        OpenError::NoFolder => "a folder that it watches isn't there",
        OpenError::Failed => "the system refuses to open it",
    }
}

/// Returns which field of a record is wrong, in words.
#[tactic(auto, unfolding(crate::specs::Faults::field_words))]
fn field_words(field: Field) -> &'static str
    ensures value { result.now ≡ field_words field }
    ensures printable { IsTrue (list_all is_printable result.now) }
{
    match field {
        Field::Session => "no record: its session isn't one",
        Field::Time => "no record: its time isn't one",
        Field::User => "no record: its user isn't a number",
        Field::Directory => "no record: its directory isn't one",
        Field::Parent => "no record: its first session isn't one",
        Field::Umask => "no record: its umask isn't one",
        Field::Number => "no record: its line has no number",
        Field::Statuses => "no record: its statuses aren't numbers",
        Field::Line => "no record: its line is neither shown nor hidden",
        Field::Variables => "no record: its variables are neither new nor the same",
        Field::Shell => "no record: its functions are neither new nor the same",
        Field::Status => "no record: its status isn't one",
    }
}

/// Returns why what was sent isn't a record, in words.
#[tactic(auto, unfolding(crate::specs::Faults::record_words))]
fn record_words(error: RecordError) -> &'static str
    ensures value { result.now ≡ record_words error }
    ensures printable { IsTrue (list_all is_printable result.now) }
{
    match error {
        RecordError::NoMem => "out of memory",
        RecordError::CutOff => "no record: it is cut off",
        RecordError::TooMany => "no record: it has too many fields",
        RecordError::UnknownKind => "no record: it isn't start, begin, end or exit",
        RecordError::Wrong(field) => field_words(field),
    }
}

/// Returns a constant text as a line.
pub(crate) fn said(alloc: Global, words: &str) -> Result<SafeLine, NoMem>
    requires { IsTrue (list_all is_printable words.now) }
    ensures { IfOk result (λ line. line ≡ words.now) }
{
    let mut line = SafeLine::new(alloc);
    line.push_ascii(words)?;
    Ok(line)
}

/// Appends words and a number to a line.
pub(crate) fn push_counted(
    alloc: Global,
    line: &mut SafeLine,
    words: &str,
    number: u64,
) -> Result<(), NoMem>
    requires { IsTrue (list_all is_printable words.now) }
    ensures { OnOk result (line.new ≡ line.old ++ words.now ++ decimal number) }
{
    line.push_ascii(words)?;
    line.push_number(alloc, number)
}

/// Returns which row of the lines of a spool is damaged, as a line.
#[tactic(auto, unfolding(crate::specs::Faults::lines_words))]
fn lines_words(alloc: Global, at: u64, row: usize) -> Result<SafeLine, NoMem>
    ensures { IfOk result (λ line. line ≡ lines_words at row) }
{
    let mut line = SafeLine::new(alloc);
    push_counted(alloc, &mut line, "its lines are damaged: row ", row as u64)?;
    push_counted(alloc, &mut line, " after byte ", at)?;
    Ok(line)
}

impl RecorderFault {
    /// Returns whether a document or a name is refused, and not a call of the system.
    pub fn is_refusal(self) -> bool
        ensures { result ≡ is_refusal self }
    {
        match self {
            RecorderFault::Open(OpenError::Exists | OpenError::Damaged)
            | RecorderFault::TooLong
            | RecorderFault::Forged
            | RecorderFault::Record(_)
            | RecorderFault::First
            | RecorderFault::Lines(_, _) => true,
            RecorderFault::Case(CaseFault::NoMem | CaseFault::Unread) => false,
            RecorderFault::Case(_) => true,
            _ => false,
        }
    }

    /// Returns what is wrong, in a line.
    #[tactic(auto, unfolding(crate::specs::Faults::fault_line))]
    pub fn line(self, alloc: Global) -> Result<SafeLine, NoMem>
        ensures { IfOk result (λ line. line ≡ fault_line self) }
    {
        match self {
            RecorderFault::NoMem => said(alloc, "out of memory"),
            RecorderFault::Open(error) => said(alloc, open_words(error)),
            RecorderFault::TooLong => said(alloc, "no record: it is too long"),
            RecorderFault::Forged => said(alloc, "no record: it is of another user"),
            RecorderFault::Record(error) => said(alloc, record_words(error)),
            RecorderFault::First => said(alloc, "its first look can't be read"),
            RecorderFault::Lines(at, row) => lines_words(alloc, at, row),
            RecorderFault::Unseen => said(alloc, "a folder that it watches can't be looked at"),
            RecorderFault::TooSlow => said(
                alloc,
                "its folders hold too much to be looked at in time",
            ),
            RecorderFault::Unwritten => said(alloc, "it can't be read or written"),
            RecorderFault::Case(fault) => case_line(alloc, fault),
        }
    }
}
