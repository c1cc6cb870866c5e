//! Lines for standard error.
ghost use Rattle.std.specs.Prelude.{◌≡◌, ◌++◌, [], IfOk, IsTrue, OnOk};
ghost use Rattle.std.specs.List.{list_all};
ghost use Rattle.casebook_text.specs.SafeText.{is_printable};
ghost use Rattle.casebook_cli.specs.Messages.{about, about_message, about_words, counted};
ghost use Rattle.casebook_cli.specs.Messages.{item_words, list_message, log_message, message_of};
ghost use Rattle.casebook_cli.specs.Messages.{number_words, numbered_words, part_words};
ghost use Rattle.casebook_cli.specs.Messages.{range_words, refusal_words, repair_message};
ghost use Rattle.casebook_cli.specs.Messages.{repair_words, said};
ghost use Rattle.casebook_cli.specs.Messages.{hindrance_words, said_of, searched_words, stop_message};

use crate::NoMem;
use crate::exit::Exit;
use casebook_about::{AboutFault, Part as AboutPart};
use casebook_repairs::{Hindrance, SearchedPart, Stop};
use casebook_text::{ItemFault, ListFault, SafeLine};
use retro_log::{Part, Refusal};
use std::alloc::Global;

/// Returns which pattern is refused, in words.
#[tactic(auto, unfolding(crate::specs::Messages::searched_words))]
fn searched_words(searched: SearchedPart) -> &'static str
    ensures value { result.now ≡ searched_words searched }
    ensures printable { IsTrue (list_all is_printable result.now) }
{
    match searched {
        SearchedPart::Text => "--text: not a regular expression, or too large a one",
        SearchedPart::Outputs => "--shown: not a regular expression, or too large a one",
    }
}

/// Returns in which part of a document a value has a wrong shape, in words.
#[tactic(auto, unfolding(crate::specs::Messages::part_words))]
fn part_words(part: Part) -> &'static str
    ensures value { result.now ≡ part_words part }
    ensures printable { IsTrue (list_all is_printable result.now) }
{
    match part {
        Part::Document => "no object, or a key is missing",
        Part::Version => "its version isn't a number",
        Part::Tree => "a directory or file has a wrong form",
        Part::Sessions => "a session has a wrong form",
        Part::Lines => "a line has a wrong form",
    }
}

/// Returns why a document is refused, in words.
#[tactic(auto, unfolding(crate::specs::Messages::refusal_words))]
fn refusal_words(refusal: Refusal) -> &'static str
    ensures value { result.now ≡ refusal_words refusal }
    ensures printable { IsTrue (list_all is_printable result.now) }
{
    match refusal {
        Refusal::NumbersNotRising => "the numbers of lines don't rise",
        Refusal::UnknownSession => "a line has a session that isn't listed",
        Refusal::LawlessTree => "the files or a change of them aren't possible",
        Refusal::OverLimit => "a name, a file or a value is too long",
        Refusal::NotJson => "no JSON text",
        Refusal::WrongShape(part) => part_words(part),
        Refusal::UnknownKey => "a key isn't one of such a document",
        Refusal::BadHex => "a text isn't pairs of hexadecimal digits",
        Refusal::BadVersion => "a version that isn't known",
    }
}

/// Appends the program's name and a colon.
#[tactic(auto, unfolding(crate::specs::Messages::said))]
fn start(alloc: Global) -> Result<SafeLine, NoMem>
    ensures { IfOk result (λ line. line ≡ said []) }
{
    let mut line = SafeLine::new(alloc);
    line.push_ascii("casebook: ")?;
    Ok(line)
}

/// Returns a text after the program's name.
#[tactic(auto, unfolding(crate::specs::Messages::said))]
fn told(alloc: Global, words: &str) -> Result<SafeLine, NoMem>
    requires { IsTrue (list_all is_printable words.now) }
    ensures { IfOk result (λ line. line ≡ said words.now) }
{
    let mut line = start(alloc)?;
    line.push_ascii(words)?;
    Ok(line)
}

/// Returns a text about a document.
#[tactic(auto, unfolding(crate::specs::Messages::said, crate::specs::Messages::said_of))]
fn told_of(alloc: Global, name: &str, words: &str) -> Result<SafeLine, NoMem>
    requires { IsTrue (list_all is_printable words.now) }
    ensures { IfOk result (λ line. line ≡ said_of name.now words.now) }
{
    let mut line = start(alloc)?;
    line.push_bytes(alloc, name.as_bytes())?;
    line.push_ascii(": ")?;
    line.push_ascii(words)?;
    Ok(line)
}

/// Returns a text about a document, without the program's name.
#[tactic(auto, unfolding(crate::specs::Messages::about))]
pub(crate) fn about(alloc: Global, name: &str, words: &str) -> Result<SafeLine, NoMem>
    requires { IsTrue (list_all is_printable words.now) }
    ensures { IfOk result (λ line. line ≡ about name.now words.now) }
{
    let mut line = SafeLine::new(alloc);
    line.push_bytes(alloc, name.as_bytes())?;
    line.push_ascii(": ")?;
    line.push_ascii(words)?;
    Ok(line)
}

/// Appends the number of a refusal.
#[tactic(auto, unfolding(crate::specs::Messages::number_words))]
fn push_refusal_number(alloc: Global, line: &mut SafeLine, number: u8) -> Result<(), NoMem>
    ensures { OnOk result (line.new ≡ line.old ++ number_words number) }
{
    line.push_ascii(" (refusal ")?;
    line.push_number(alloc, u64::from(number))?;
    line.push_ascii(")")
}

/// Appends why a document is refused, with the number of the refusal.
#[tactic(auto, unfolding(crate::specs::Messages::numbered_words))]
pub(crate) fn push_refusal(
    alloc: Global,
    line: &mut SafeLine,
    refusal: Refusal,
) -> Result<(), NoMem>
    ensures { OnOk result (line.new ≡ line.old ++ numbered_words refusal) }
{
    line.push_ascii(refusal_words(refusal))?;
    push_refusal_number(alloc, line, refusal.number())
}

/// Returns why a document isn't a log.
#[tactic(auto, unfolding(crate::specs::Messages::log_message))]
fn log_message(alloc: Global, name: &str, refusal: Refusal) -> Result<SafeLine, NoMem>
    ensures { IfOk result (λ line. line ≡ log_message name.now refusal) }
{
    let mut line = told_of(alloc, name, "not a log: ")?;
    push_refusal(alloc, &mut line, refusal)?;
    Ok(line)
}

/// Returns why a repair is refused, by the number of the refusal.
#[tactic(auto, unfolding(crate::specs::Messages::repair_words))]
fn repair_words(number: u8) -> &'static str
    ensures value { result.now ≡ repair_words number }
    ensures printable { IsTrue (list_all is_printable result.now) }
{
    match number {
        21 => "no line has the number of a line to replace",
        22 => "--cuts: no number, or a 0",
        23 => "--workers: too many",
        25 => "the log begins after a line to replace",
        26 => "a line is to be cancelled or replaced twice",
        _ => "the repair is refused",
    }
}

/// Returns why a repair is refused, with the number of the refusal.
#[tactic(auto, unfolding(crate::specs::Messages::repair_message))]
fn repair_message(alloc: Global, number: u8) -> Result<SafeLine, NoMem>
    ensures { IfOk result (λ line. line ≡ repair_message number) }
{
    let mut line = told(alloc, repair_words(number))?;
    push_refusal_number(alloc, &mut line, number)?;
    Ok(line)
}

/// Appends a text and a number.
fn push_counted(alloc: Global, line: &mut SafeLine, words: &str, number: u32) -> Result<(), NoMem>
    requires { IsTrue (list_all is_printable words.now) }
    ensures { OnOk result (line.new ≡ line.old ++ counted words.now number) }
{
    line.push_ascii(words)?;
    line.push_number(alloc, u64::from(number))
}

/// Appends that no line is in a range.
fn push_range(alloc: Global, line: &mut SafeLine, first: u32, last: u32) -> Result<(), NoMem>
    ensures { OnOk result (line.new ≡ line.old ++ range_words first last) }
{
    push_counted(alloc, line, "no line has a number from ", first)?;
    push_counted(alloc, line, " to ", last)
}

/// Appends why an item of a list is refused.
#[tactic(auto, unfolding(crate::specs::Messages::item_words))]
fn push_item(alloc: Global, line: &mut SafeLine, fault: ItemFault) -> Result<(), NoMem>
    ensures { OnOk result (line.new ≡ line.old ++ item_words fault) }
{
    match fault {
        ItemFault::NotAnItem => line.push_ascii("not N, N-M, S:all, -N or -N-M"),
        ItemFault::NoLine(number) => {
            push_counted(alloc, line, "no line has the number ", number)
        }
        ItemFault::EmptyRange(first, last) => push_range(alloc, line, first, last),
        ItemFault::EmptySession(session) => {
            push_counted(alloc, line, "no line is of session ", session)
        }
    }
}

/// Returns why a list of lines is refused.
#[tactic(auto, unfolding(crate::specs::Messages::list_message))]
fn list_message(alloc: Global, fault: ListFault) -> Result<SafeLine, NoMem>
    ensures { IfOk result (λ line. line ≡ list_message fault) }
{
    match fault {
        ListFault::NoMem => told(alloc, "out of memory"),
        ListFault::BadItem { position, fault } => {
            let mut line = told(alloc, "--cancel: item ")?;
            line.push_number(alloc, position as u64)?;
            line.push_ascii(": ")?;
            push_item(alloc, &mut line, fault)?;
            Ok(line)
        }
    }
}

/// Returns what is wrong with an about document, in words.
#[tactic(auto, unfolding(crate::specs::Messages::about_words))]
fn about_words(fault: AboutFault) -> &'static str
    ensures value { result.now ≡ about_words fault }
    ensures printable { IsTrue (list_all is_printable result.now) }
{
    match fault {
        AboutFault::NoMem => "out of memory",
        AboutFault::NotJson => "no JSON text",
        AboutFault::NotAbout => "no about document: \"about\" isn't 1",
        AboutFault::NotAList(AboutPart::Sessions) => "sessions: not a list",
        AboutFault::NotAList(AboutPart::Lines) => "lines: not a list",
        AboutFault::BadRow { part, .. } => match part {
            AboutPart::Sessions => "sessions: not the number of a session and a name: row ",
            AboutPart::Lines => "lines: not the number of a line and a time: row ",
        },
    }
}

/// Returns why a document doesn't hold names and times.
#[tactic(auto, unfolding(crate::specs::Messages::about_message))]
fn about_message(alloc: Global, name: &str, fault: AboutFault) -> Result<SafeLine, NoMem>
    ensures { IfOk result (λ line. line ≡ about_message name.now fault) }
{
    let mut line = told_of(alloc, name, about_words(fault))?;
    if let AboutFault::BadRow { place, .. } = fault {
        line.push_number(alloc, place as u64)?;
    }
    Ok(line)
}

/// Returns a line about a document.
#[tactic(auto, unfolding(crate::specs::Messages::said_of))]
fn told_line(alloc: Global, name: &str, words: &SafeLine) -> Result<SafeLine, NoMem>
    ensures { IfOk result (λ line. line ≡ said_of name.now words.now) }
{
    let mut line = told_of(alloc, name, "")?;
    line.push_line(words)?;
    Ok(line)
}

/// Returns a text with a number, after the program's name.
#[tactic(auto, unfolding(crate::specs::Messages::said))]
fn told_number(alloc: Global, words: &str, number: u32) -> Result<SafeLine, NoMem>
    requires { IsTrue (list_all is_printable words.now) }
    ensures { IfOk result (λ line. line ≡ said (counted words.now number)) }
{
    let mut line = start(alloc)?;
    push_counted(alloc, &mut line, words, number)?;
    Ok(line)
}

/// Returns what hinders a document or a folder from being read.
#[tactic(auto, unfolding(crate::specs::Messages::hindrance_words))]
fn hindrance_words(hindrance: Hindrance) -> &'static str
    ensures value { result.now ≡ hindrance_words hindrance }
    ensures printable { IsTrue (list_all is_printable result.now) }
{
    match hindrance {
        Hindrance::Missing => "no such file",
        Hindrance::Directory => "a directory, not a file",
        Hindrance::NotPermitted => "reading it isn't permitted",
        Hindrance::Other => "can't be read",
    }
}

/// Returns why there is no answer.
#[tactic(auto, unfolding(crate::specs::Messages::stop_message))]
fn stop_message(alloc: Global, stop: Stop<'_>) -> Result<SafeLine, NoMem>
    ensures { IfOk result (λ line. line ≡ stop_message stop.entry) }
{
    match stop {
        Stop::BadWords(problem) => told(alloc, problem.words()),
        Stop::BadPattern(searched) => told(alloc, searched_words(searched)),
        Stop::NoUser => told(alloc, "--user: no line is of a session with this name"),
        Stop::BadLog(name, refusal) => log_message(alloc, name, refusal),
        Stop::BadText(name) => told_of(alloc, name, "not UTF-8"),
        Stop::BadAbout(name, fault) => about_message(alloc, name, fault),
        Stop::BadTime(number) => told_number(alloc, "--about: no such time: line ", number),
        Stop::BadList(fault) => list_message(alloc, fault),
        Stop::NoLine(number) => told_number(alloc, "--line: no line has the number ", number),
        Stop::LineCancelled(number) => told_number(alloc, "--line: cancelled is line ", number),
        Stop::UnknownOutput(number) => {
            told_number(
                alloc,
                "--line: it isn't known what is printed by line ",
                number,
            )
        }
        Stop::NoFile => told(alloc, "PATH: there would be nothing at this path"),
        Stop::NotAFile => told(alloc, "PATH: a directory would be at this path"),
        Stop::NotKept => told(alloc, "PATH: what would be there isn't kept in the case"),
        Stop::BadRepair(number) => repair_message(alloc, number),
        Stop::OutOfMemory => told(alloc, "out of memory"),
        Stop::ReadFailed(name, hindrance) => told_of(alloc, name, hindrance_words(hindrance)),
        Stop::NotADirectory(name) => told_of(alloc, name, "not a directory"),
        Stop::BadFile(name, fault) => told_line(alloc, name, &fault.line(alloc)?),
        Stop::UndoFailed(name) => told_of(alloc, name, "this undo file can't be read or written"),
        Stop::BadUndo(name) => told_of(alloc, name, "not an undo file"),
        Stop::OtherUndo(name) => told_of(alloc, name, "the undo file of another restore"),
        Stop::FolderChanged(name) => told_of(
            alloc,
            name,
            "changed meanwhile; nothing was restored",
        ),
        Stop::Unfinished(name) => told_of(
            alloc,
            name,
            "restored in part; run this again, or take it back by the undo file",
        ),
        Stop::BadCase(name, refusal) => told_line(alloc, name, &refusal.line(alloc)?),
        Stop::Unshown(name) => told_of(alloc, name, "its lines can't be shown one by one"),
        Stop::Recorder(name, fault) => told_line(alloc, name, &fault.line(alloc)?),
    }
}

/// Returns the line for standard error, or an empty line if the program wrote an answer.
#[tactic(auto, unfolding(crate::specs::Messages::message_of))]
pub(crate) fn message_of(alloc: Global, exit: Exit<'_>) -> Result<SafeLine, NoMem>
    ensures { IfOk result (λ line. line ≡ message_of exit.entry) }
{
    match exit {
        Exit::Done | Exit::No => Ok(SafeLine::new(alloc)),
        Exit::Stopped(stop) => stop_message(alloc, stop),
        Exit::WriteFailed => told(alloc, "the answer can't be written"),
    }
}
