//! Whom to tell, and about what.
ghost use Rattle.std.specs.Prelude.{◌≡◌, IfOk, map};
ghost use Rattle.std.specs.List.{filter};
ghost use Rattle.casebook_cause.specs.Compensations.{tellings};
ghost use Rattle.std.specs.Option.{option_copied};
ghost use Rattle.casebook_view.specs.Reasons.{notes_at};
ghost use Rattle.casebook_summary.specs.Summaries.{line_subject, notice_at, notice_for};
ghost use Rattle.casebook_summary.specs.Summaries.{notices_at, subject_asked, subject_by, subject_why};
ghost use Rattle.casebook_view.specs.Unknown.{is_need, is_understood, numbers_to_run};

use crate::NoMem;
use crate::subject::Subject;
use casebook_cause::tellings;
use casebook_view::{Case, CaseLines, Obstacle, Obstacles, Reason, UnknownLine, Why, failing_ask};
use retro_tree::Ask;
use std::alloc::Global;

/// A line that isn't cancelled, and of whose screen somebody has to be told: it prints something else
/// in the repaired run, or it was observed, and what it depends on would be another.
#[derive(Drop)]
pub struct Notice {
    /// The line's number.
    pub number: u32,
    /// The session that ran the line.
    pub session: u32,
    /// What the line's first query is about that has another answer, if one has.
    pub subject: Subject,
}

/// Returns what a query is about, or that the line is run again with all others if there is none.
fn subject_asked(alloc: Global, ask: Option<&Ask>) -> Result<Subject, NoMem>
    ensures { IfOk result (λ subject. subject ≡ subject_asked (option_copied ask.entry)) }
{
    match ask {
        Some(ask) => Subject::of(alloc, ask),
        None => Ok(Subject::Again),
    }
}

/// Returns what a line is told about that is run again, by why it is.
fn subject_why(alloc: Global, case: &Case<'_>, number: u32, why: Why) -> Result<Subject, NoMem>
    ensures { IfOk result (λ subject.
        subject ≡ subject_why (notes_at number case.now.recording) why) }
{
    match why {
        Why::Replaced => Ok(Subject::Text),
        Why::Query(index) => subject_asked(alloc, failing_ask(case, number, Some(index))),
        Why::RunAgain => Ok(Subject::Again),
    }
}

/// Returns what a line is told about, by why it is run again, if it is.
fn subject_by(
    alloc: Global,
    case: &Case<'_>,
    number: u32,
    reason: Option<Reason>,
) -> Result<Subject, NoMem>
    ensures { IfOk result (λ subject.
        subject ≡ subject_by (notes_at number case.now.recording) reason) }
{
    match reason {
        Some(reason) => subject_why(alloc, case, number, reason.why),
        None => Ok(Subject::Again),
    }
}

/// Returns what the line with a number is told about.
fn subject_of(
    alloc: Global,
    case: &Case<'_>,
    lines: &CaseLines,
    number: u32,
) -> Result<Subject, NoMem>
    ensures { IfOk result (λ subject.
        subject ≡ line_subject case.now.recording lines.now number) }
{
    match lines.at(number) {
        Some(line) => subject_by(alloc, case, number, line.reason),
        None => Ok(Subject::Again),
    }
}

/// Returns what a line is told about.
fn notice_of(
    alloc: Global,
    case: &Case<'_>,
    lines: &CaseLines,
    number: u32,
) -> Result<Notice, NoMem>
    ensures { IfOk result (λ notice.
        notice ≡ notice_at case.now.recording lines.now number) }
{
    Ok(Notice {
        number,
        session: case.session_of(number),
        subject: subject_of(alloc, case, lines, number)?,
    })
}

/// Returns whom to tell about what: a notice for each line that isn't cancelled and prints
/// something else, in order, without those that aren't understood. What such a line printed is
/// Retro's own, and nobody saw it; or what it would print isn't known.
pub fn notices(
    alloc: Global,
    case: &Case<'_>,
    lines: &CaseLines,
    unknown: &[UnknownLine],
) -> Result<Vec<Notice>, NoMem>
    ensures { IfOk result (λ found.
        found.items ≡ map (notice_for case.now.recording lines.now)
        (filter (is_understood unknown.now) (tellings case.now.recording case.now.repair))) }
{
    let compensations = tellings(alloc, case.recording(), case.repair())?;
    let obstacles = Obstacles::of(alloc, unknown)?;
    let mut found = Vec::new(alloc);
    for compensation in &compensations {
        if obstacles.has_none(compensation.number) {
            found.push(notice_of(alloc, case, lines, compensation.number)?)?;
        }
    }
    Ok(found)
}

/// Returns whether a line has to be run for real.
pub(crate) fn is_need(obstacle: Obstacle) -> bool
    ensures { result ≡ is_need obstacle }
{
    matches!(obstacle, Obstacle::Need)
}

/// Returns who looked at what by the lines that have to be run for real: a notice for each of them,
/// in order. What they showed isn't known, and it may have been wrong.
pub fn looks(
    alloc: Global,
    case: &Case<'_>,
    lines: &CaseLines,
    unknown: &[UnknownLine],
) -> Result<Vec<Notice>, NoMem>
    ensures { IfOk result (λ found.
        found.items ≡ notices_at case.now.recording lines.now (numbers_to_run unknown.now)) }
{
    let mut found = Vec::new(alloc);
    for line in unknown {
        if is_need(line.obstacle) {
            found.push(notice_of(alloc, case, lines, line.number)?)?;
        }
    }
    Ok(found)
}
