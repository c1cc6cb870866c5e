//! The answers to the queries for which lines are run again.
use casebook_summary::Summary;
use casebook_view::{Case, OtherAnswer, Reason, answers_of};
use retro_rows::{fail, text, utf8};
use retro_tree::{Answer, Ask, Node};
use std::alloc::Global;
use std::test::Fail;

/// Returns the path of a query for the bytes of a file.
fn file_asked(ask: &Ask) -> Result<&str, Fail> {
    match ask {
        Ask::Bytes(path) => Ok(path.as_str()),
        _ => fail("the query is another one"),
    }
}

/// Returns the text of a file that an answer has.
fn file_text(answer: &Answer) -> Result<&str, Fail> {
    match answer {
        Answer::Bytes(Node::File(bytes)) => utf8(bytes.as_slice()),
        _ => fail("the answer is no file"),
    }
}

/// Returns a query with its recorded and its repaired answer.
fn other_text(alloc: Global, found: &OtherAnswer<'_>) -> Result<String, Fail> {
    let at = file_asked(found.ask)?;
    let recorded = file_text(found.recorded)?;
    let repaired = file_text(&found.repaired)?;
    Ok(format!(in alloc; "{at} {recorded}/ {repaired}")?)
}

/// Returns the reason of a line, if it is run again.
fn reason_of(summary: &Summary, number: u32) -> Option<Reason> {
    match summary.lines.at(number) {
        Some(line) => line.reason,
        None => None,
    }
}

/// Returns the query by a reason with its answers, or `none` if no query is the reason.
fn answers_by(
    alloc: Global,
    case: &Case<'_>,
    number: u32,
    reason: &Reason,
) -> Result<String, Fail> {
    match answers_of(alloc, case, number, reason)? {
        Some(found) => other_text(alloc, &found),
        None => Ok(text(alloc, "none")?),
    }
}

/// Returns the query for which a line is run again, with its answers.
pub fn answers(
    alloc: Global,
    case: &Case<'_>,
    summary: &Summary,
    number: u32,
) -> Result<String, Fail> {
    match reason_of(summary, number) {
        Some(reason) => answers_by(alloc, case, number, &reason),
        None => fail("the line isn't run again"),
    }
}
