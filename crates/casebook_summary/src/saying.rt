//! What is said of repairs in words.
ghost use Rattle.std.specs.Prelude.{◌≡◌, ◌++◌, IfOk, IsTrue, OnOk, option_map};
ghost use Rattle.std.specs.List.{list_all};
ghost use Rattle.casebook_text.specs.SafeText.{is_printable};
ghost use Rattle.casebook_view.specs.OtherAnswers.{answers_of, answers_value};
ghost use Rattle.casebook_summary.specs.Words.{failing_words, obstacle_words, played_words};
ghost use Rattle.casebook_summary.specs.Words.{subject_words, why_words};

use crate::NoMem;
use crate::subject::Subject;
use casebook_text::SafeLine;
use casebook_view::{Case, Obstacle, OtherAnswer, Reason, Why, answers_of};
use casebook_words::{obstacle_text, obstacles_text, push_difference, push_path, push_query};
use std::alloc::Global;

/// Returns what an answer about lines rests on that were played, by whether their log is as they
/// run.
#[tactic(auto, unfolding(crate::specs::Words::played_words))]
pub fn played_words(is_recording: bool) -> &'static str
    ensures value { result.now ≡ played_words is_recording }
    ensures printable { IsTrue (list_all is_printable result.now) }
{
    if is_recording {
        "Played in Retro's shell. Whether the machine did the same isn't known."
    } else {
        "The log isn't as its lines run: what was recorded is only what its notes say."
    }
}

/// Returns why it isn't known what so many lines do.
pub fn obstacle_words(obstacle: Obstacle, count: usize) -> &'static str
    ensures value { result.now ≡ obstacle_words obstacle count }
    ensures printable { IsTrue (list_all is_printable result.now) }
{
    if count == 1 {
        obstacle_text(obstacle)
    } else {
        obstacles_text(obstacle)
    }
}

/// Returns what lines are told about.
#[tactic(auto, unfolding(crate::specs::Words::subject_words))]
pub fn subject_line(alloc: Global, subject: &Subject) -> Result<SafeLine, NoMem>
    ensures { IfOk result (λ line. line ≡ subject_words subject.now) }
{
    let mut line = SafeLine::new(alloc);
    match subject {
        Subject::At(path) => push_path(alloc, &mut line, path)?,
        Subject::Directory => line.push_ascii("the directory")?,
        Subject::Variable(name) => {
            line.push_ascii("the variable ")?;
            line.push_word(alloc, name.as_str().as_bytes())?;
        }
        Subject::Status => line.push_ascii("the status")?,
        Subject::Text => line.push_ascii("a replaced line")?,
        Subject::Again => line.push_ascii("run again with all others")?,
    }
    Ok(line)
}

/// Appends a query that has another answer, and how the answers differ, or that all lines are run
/// again.
#[tactic(auto, unfolding(crate::specs::Words::failing_words))]
fn push_failing(
    alloc: Global,
    line: &mut SafeLine,
    found: Option<OtherAnswer<'_>>,
) -> Result<(), NoMem>
    ensures { OnOk result (line.new
        ≡ line.old ++ failing_words (option_map answers_value found.entry)) }
{
    match found {
        Some(found) => {
            push_query(alloc, line, found.ask)?;
            push_difference(alloc, line, found.recorded, &found.repaired)
        }
        None => line.push_ascii("run again with all others"),
    }
}

/// Returns why a line is run again: its text is replaced; or a query has another answer, with both
/// answers; or all lines are run again.
#[tactic(auto, unfolding(crate::specs::Words::why_words))]
pub fn why_line(
    alloc: Global,
    case: &Case<'_>,
    number: u32,
    reason: &Reason,
) -> Result<SafeLine, NoMem>
    ensures { IfOk result (λ line. line ≡ why_words reason.now.why
        (answers_of case.now.recording case.now.repair number reason.now)) }
{
    let mut line = SafeLine::new(alloc);
    match reason.why {
        Why::Replaced => line.push_ascii("its text is replaced")?,
        Why::Query(_) => push_failing(alloc, &mut line, answers_of(alloc, case, number, reason)?)?,
        Why::RunAgain => line.push_ascii("run again with all others")?,
    }
    Ok(line)
}
