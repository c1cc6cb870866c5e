//! Why lines are run again.
ghost use Rattle.std.specs.Prelude.{◌≡◌, ◌++◌, IfOk, OnOk, flat_map, map};
ghost use Rattle.casebook_screen.specs.Screen.{IsScreen};
ghost use Rattle.casebook_screen.specs.Why.{changed_told, reason_told, why_told, whys_told};
ghost use Rattle.casebook_screen.specs.declared.piece.Piece.TheVariants.{Number};

use crate::NoMem;
use crate::names::Names;
use crate::screen::Screen;
use crate::shown::{INDENT, command_line, push_name, push_number};
use casebook_summary::{Summary, why_line};
use casebook_text::SafeLine;
use casebook_view::{Case, CaseLine, Fate, Reason};
use std::alloc::Global;

/// How many bytes of a line are shown.
const TEXT_LIMIT: usize = 57;

/// What explains why lines are run again.
#[derive(Drop, Clone, Copy)]
pub(crate) struct Explainer<'a, 'h> {
    /// The recording and its repair.
    pub(crate) case: &'h Case<'a>,
    /// What the repair would do.
    pub(crate) summary: &'h Summary,
}

/// Appends the chain of lines that a line comes from, if there is one.
fn push_chain(screen: &mut Screen, causes: &[u32]) -> Result<(), NoMem>
    ensures { OnOk result (screen.new ≡ screen.old ++ map Number causes.now) }
{
    let mut is_first = true;
    for cause in causes {
        if is_first {
            screen.words("   because of ")?;
        } else {
            screen.words(" < ")?;
        }
        screen.number(u64::from(*cause))?;
        is_first = false;
    }
    Ok(())
}

/// Appends a line with why a line is run again, and the chain of lines that it comes from.
pub(crate) fn push_reason(
    screen: &mut Screen,
    alloc: Global,
    explainer: Explainer<'_, '_>,
    number: u32,
    reason: &Reason,
) -> Result<(), NoMem>
    ensures { OnOk result (screen.new ≡ screen.old ++ reason_told
        explainer.entry.case.now.recording explainer.entry.case.now.repair
        explainer.entry.summary.now.lines number reason.now) }
{
    let causes = explainer.summary.lines.chain(alloc, number)?;
    screen.spaces(INDENT)?;
    screen.text(why_line(alloc, explainer.case, number, reason)?)?;
    push_chain(screen, causes.as_slice())?;
    screen.end()
}

/// Appends a line, and why it is run again, if it is.
fn push_why(
    screen: &mut Screen,
    alloc: Global,
    explainer: Explainer<'_, '_>,
    names: Names<'_>,
    line: &CaseLine,
) -> Result<(), NoMem>
    ensures { OnOk result (screen.new ≡ screen.old ++ why_told
        explainer.entry.case.now.recording explainer.entry.case.now.repair
        explainer.entry.summary.now.lines names.entry.labels.now line.now line.now.reason) }
{
    let Some(reason) = &line.reason else {
        return Ok(());
    };
    let recording = explainer.case.recording();
    push_number(screen, alloc, line.number)?;
    screen.words(" ")?;
    push_name(screen, alloc, names, line.session)?;
    screen.words(" ")?;
    screen.text(command_line(alloc, recording, line.number, TEXT_LIMIT)?)?;
    screen.end()?;
    push_reason(screen, alloc, explainer, line.number, reason)
}

/// Appends a line, and why it is run again, if it is and has another result.
fn push_changed(
    screen: &mut Screen,
    alloc: Global,
    explainer: Explainer<'_, '_>,
    names: Names<'_>,
    line: &CaseLine,
) -> Result<(), NoMem>
    ensures { OnOk result (screen.new ≡ screen.old ++ changed_told
        explainer.entry.case.now.recording explainer.entry.case.now.repair
        explainer.entry.summary.now.lines names.entry.labels.now line.now) }
{
    if line.fate != Fate::Changed {
        return Ok(());
    }
    push_why(screen, alloc, explainer, names, line)
}

/// Appends each line that is run again with another result, and why.
fn push_all_changed(
    screen: &mut Screen,
    alloc: Global,
    explainer: Explainer<'_, '_>,
    names: Names<'_>,
) -> Result<(), NoMem>
    ensures { OnOk result (screen.new ≡ screen.old ++ flat_map (changed_told
        explainer.entry.case.now.recording explainer.entry.case.now.repair
        explainer.entry.summary.now.lines names.entry.labels.now)
        explainer.entry.summary.now.lines) }
{
    for line in explainer.summary.lines.as_slice() {
        push_changed(screen, alloc, explainer, names, line)?;
    }
    Ok(())
}

/// Returns why lines are run again: an empty line, a title, and two lines for each line that has
/// another result. The first has its number, its session and its text. The second has the first
/// query that has another answer in the repaired run, both answers, and the chain of lines that it
/// comes from.
pub fn why_lines(
    alloc: Global,
    case: &Case<'_>,
    summary: &Summary,
    names: Names<'_>,
) -> Result<Vec<SafeLine>, NoMem>
    ensures { IfOk result (λ lines. IsScreen (whys_told case.now.recording case.now.repair
        summary.now names.entry.labels.now) lines.items) }
{
    let explainer = Explainer { case, summary };
    let mut screen = Screen::new(alloc);
    screen.end()?;
    screen.said(alloc, "WHY  ")?;
    screen.words("lines run again with another result")?;
    screen.end()?;
    push_all_changed(&mut screen, alloc, explainer, names)?;
    screen.lines(alloc)
}
