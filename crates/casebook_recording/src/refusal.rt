//! Why a document has no log, in words.
ghost use Rattle.std.specs.Prelude.{◌≡◌, ◌++◌, IfOk, IsTrue, OnOk, decimal};
ghost use Rattle.std.specs.List.{list_all};
ghost use Rattle.casebook_text.specs.SafeText.{is_printable};
ghost use Rattle.casebook_recording.specs.Refusals.{case_words, cell_words, counted, fault_words};
ghost use Rattle.casebook_recording.specs.Refusals.{refusal_of, refusal_words, what_words};
ghost use Rattle.casebook_recording.specs.Refusals.{var_words, where_words};

use crate::NoMem;
use crate::recording_fault::RecordingFault;
use casebook_case::CaseFault;
use casebook_explain::LineFault;
use casebook_text::SafeLine;
use casebook_words::push_path;
use retro_tree::{Cell, VarName};
use std::alloc::Global;

/// Why a document has no log, but for memory. Places and rows are counted from 1.
#[derive(Clone, Copy, Debug, Drop, PartialEq, Eq)]
pub enum CaseRefusal {
    /// It isn't a case.
    Case(CaseFault),
    /// The record of this observation, counted from 0, contradicts an earlier one.
    Contradiction(usize),
    /// There are more sessions than can be numbered with 32 bits.
    TooManySessions,
    /// What the first look saw isn't lawful.
    LawlessState,
    /// The line with this place can't be explained.
    Line(u32),
    /// There are more lines than can be counted with 32 bits.
    TooManyLines,
}

impl RecordingFault {
    /// Returns why there is no recording, without what a line left, or `None` if memory ran out.
    pub fn refusal(&self) -> Option<CaseRefusal>
        ensures { result ≡ refusal_of self.now }
    {
        match self {
            RecordingFault::NoMem => None,
            RecordingFault::Case(fault) => Some(CaseRefusal::Case(*fault)),
            RecordingFault::Contradiction(at) => Some(CaseRefusal::Contradiction(*at)),
            RecordingFault::TooManySessions => Some(CaseRefusal::TooManySessions),
            RecordingFault::LawlessState => Some(CaseRefusal::LawlessState),
            RecordingFault::Line(place, _) => Some(CaseRefusal::Line(*place)),
            RecordingFault::TooManyLines => Some(CaseRefusal::TooManyLines),
        }
    }
}

/// Returns a constant text as a line.
fn said(alloc: Global, words: &str) -> Result<SafeLine, NoMem>
    requires { IsTrue (list_all is_printable words.now) }
    ensures { IfOk result (λ line. line ≡ words.now) }
{
    let mut line = SafeLine::new(alloc);
    line.push_ascii(words)?;
    Ok(line)
}

/// Returns a line with a number between two texts.
fn counted(alloc: Global, front: &str, number: u64, back: &str) -> Result<SafeLine, NoMem>
    requires front { IsTrue (list_all is_printable front.now) }
    requires back { IsTrue (list_all is_printable back.now) }
    ensures { IfOk result (λ line. line ≡ counted front.now number back.now) }
{
    let mut line = said(alloc, front)?;
    line.push_number(alloc, number)?;
    line.push_ascii(back)?;
    Ok(line)
}

/// Returns why a document isn't a case, as a line.
#[tactic(auto, unfolding(crate::specs::Refusals::case_words))]
fn case_words(alloc: Global, fault: CaseFault) -> Result<SafeLine, NoMem>
    ensures { IfOk result (λ line. line ≡ case_words fault) }
{
    match fault {
        CaseFault::NoMem => said(alloc, "out of memory"),
        CaseFault::Unread => said(alloc, "it can't be read"),
        CaseFault::NotText => said(alloc, "it isn't text"),
        CaseFault::NotJson => said(alloc, "not a JSON value"),
        CaseFault::NotACase => said(alloc, "not a case"),
        CaseFault::BadContent(place) => counted(
            alloc,
            "content ",
            place as u64,
            " isn't hexadecimal digits",
        ),
        CaseFault::BadFirst => said(alloc, "its first look can't be read"),
        CaseFault::BadLine(row) => counted(alloc, "row ", row as u64, " of its lines is damaged"),
        CaseFault::MissingFirst(row) => counted(
            alloc,
            "row ",
            row as u64,
            " of its first look: the bytes are missing or were altered",
        ),
        CaseFault::MissingLine(row) => counted(
            alloc,
            "row ",
            row as u64,
            " of its lines: the bytes are missing or were altered",
        ),
    }
}

impl CaseRefusal {
    /// Returns why there is no log, as a line.
    #[tactic(auto, unfolding(crate::specs::Refusals::refusal_words))]
    pub fn line(self, alloc: Global) -> Result<SafeLine, NoMem>
        ensures { IfOk result (λ line. line ≡ refusal_words self) }
    {
        match self {
            CaseRefusal::Case(fault) => case_words(alloc, fault),
            CaseRefusal::Contradiction(at) => counted(
                alloc,
                "after ",
                at as u64,
                " records one begins or ends a line that is there already",
            ),
            CaseRefusal::TooManySessions => said(alloc, "it has too many sessions"),
            CaseRefusal::LawlessState => said(alloc, "its first look isn't a lawful tree"),
            CaseRefusal::Line(place) => counted(
                alloc,
                "what line ",
                u64::from(place),
                " left can't be there",
            ),
            CaseRefusal::TooManyLines => said(alloc, "it has too many lines"),
        }
    }
}

/// Appends a constant text and the number of a session.
fn push_session(alloc: Global, line: &mut SafeLine, words: &str, session: u32) -> Result<(), NoMem>
    requires { IsTrue (list_all is_printable words.now) }
    ensures { OnOk result (line.new ≡ line.old ++ (words.now ++ decimal session)) }
{
    line.push_ascii(words)?;
    line.push_number(alloc, u64::from(session))
}

/// Appends a variable of a session.
fn push_var(alloc: Global, line: &mut SafeLine, session: u32, name: &VarName) -> Result<(), NoMem>
    ensures { OnOk result (line.new ≡ line.old ++ var_words session name.now) }
{
    line.push_ascii("the variable ")?;
    line.push_word(alloc, name.as_str().as_bytes())?;
    line.push_ascii(" of session ")?;
    line.push_number(alloc, u64::from(session))
}

/// Appends what a line left.
#[tactic(auto, unfolding(crate::specs::Refusals::cell_words))]
fn push_cell(alloc: Global, line: &mut SafeLine, cell: &Cell) -> Result<(), NoMem>
    ensures { OnOk result (line.new ≡ line.old ++ cell_words cell.now) }
{
    match cell {
        Cell::At(path) => push_path(alloc, line, path),
        Cell::Cwd(session) => push_session(alloc, line, "the directory of session ", *session),
        Cell::Var(session, name) => push_var(alloc, line, *session, name),
        Cell::Status(session) => push_session(alloc, line, "the status of session ", *session),
    }
}

/// Appends what a line left, if that is why it can't be explained.
fn push_what(alloc: Global, line: &mut SafeLine, fault: &LineFault) -> Result<(), NoMem>
    ensures { OnOk result (line.new ≡ line.old ++ what_words fault.now) }
{
    match fault {
        LineFault::UnknownSession => Ok(()),
        LineFault::Unwritten(cell) | LineFault::Unexplained(cell) => {
            line.push_ascii(": ")?;
            push_cell(alloc, line, cell)
        }
    }
}

impl RecordingFault {
    /// Appends what a line left, if that is the fault.
    fn push_where(&self, alloc: Global, line: &mut SafeLine) -> Result<(), NoMem>
        ensures { OnOk result (line.new ≡ line.old ++ where_words self.now) }
    {
        match self {
            RecordingFault::Line(_, fault) => push_what(alloc, line, fault),
            _ => Ok(()),
        }
    }

    /// Returns why there is no recording, as a line, and of a line that can't be explained also what
    /// it left that can't be there. Returns `None` if memory ran out.
    pub fn line(&self, alloc: Global) -> Result<Option<SafeLine>, NoMem>
        ensures { IfOk result (λ line. line ≡ fault_words self.now) }
    {
        let Some(refusal) = self.refusal() else {
            return Ok(None);
        };
        let mut line = refusal.line(alloc)?;
        self.push_where(alloc, &mut line)?;
        Ok(Some(line))
    }
}
