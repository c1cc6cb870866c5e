//! One line in full.
ghost use Rattle.std.specs.Prelude.{◌≡◌, ◌++◌, IfOk, IsTrue, OnOk, map};
ghost use Rattle.std.specs.List.{list_all};
ghost use Rattle.std.specs.Option.{option_copied};
ghost use Rattle.casebook_text.specs.SafeText.{is_printable};
ghost use Rattle.casebook_words.specs.Words.{note_words};
ghost use Rattle.casebook_screen.specs.Screen.{IsScreen};
ghost use Rattle.casebook_screen.specs.Why.{both_told, detail_head, detail_told, outcome_told};
ghost use Rattle.casebook_screen.specs.Why.{reason_if, repaired_told, run_told, runs_told};
ghost use Rattle.casebook_screen.specs.declared.piece.Piece.TheVariants.{Text as Told};

use crate::NoMem;
use crate::counts::fate_words;
use crate::lines::bytes_line;
use crate::names::Names;
use crate::screen::Screen;
use crate::shown::{INDENT, push_name, push_number, push_obstacle, push_time};
use crate::why::{Explainer, push_reason};
use casebook_summary::Summary;
use casebook_text::SafeLine;
use casebook_view::{Case, CaseLine, Reason};
use casebook_words::{push_note, shown_lines};
use retro_keep::Noted;
use retro_tree::Note;
use std::alloc::Global;

/// How far notes are indented.
const NOTE_INDENT: usize = 10;

/// Appends the number, the time, the session and the text of a line.
fn push_head(
    screen: &mut Screen,
    alloc: Global,
    names: Names<'_>,
    number: u32,
    noted: &Noted,
) -> Result<(), NoMem>
    ensures { OnOk result (screen.new
        ≡ screen.old ++ detail_head names.entry.labels.now number noted.now) }
{
    push_number(screen, alloc, number)?;
    push_time(screen, names.labels.time_of(alloc, number)?)?;
    screen.words(" ")?;
    push_name(screen, alloc, names, noted.sid)?;
    screen.words(" ")?;
    screen.text(bytes_line(alloc, noted.text.bytes())?)?;
    screen.end()
}

/// Appends notes in words.
fn push_notes(screen: &mut Screen, alloc: Global, notes: &[Note]) -> Result<(), NoMem>
    ensures { OnOk result (screen.new
        ≡ screen.old ++ map (λ note. Told (note_words note)) notes.now) }
{
    for note in notes {
        let mut words = SafeLine::new(alloc);
        push_note(alloc, &mut words, note)?;
        screen.spaces(NOTE_INDENT)?;
        screen.text(words)?;
        screen.end()?;
    }
    Ok(())
}

/// Appends the lines of an output.
fn push_output(screen: &mut Screen, alloc: Global, shown: &[SafeLine]) -> Result<(), NoMem>
    ensures { OnOk result (screen.new ≡ screen.old ++ map Told shown.now) }
{
    for text in shown {
        let mut line = SafeLine::new(alloc);
        line.push_line(text)?;
        screen.spaces(INDENT)?;
        screen.words("| ")?;
        screen.text(line)?;
        screen.end()?;
    }
    Ok(())
}

/// Appends a run of a line: a title, its notes in words, and what it printed.
#[tactic(auto, unfolding(crate::specs::Why::run_told))]
fn push_run(screen: &mut Screen, alloc: Global, title: &str, noted: &Noted) -> Result<(), NoMem>
    requires { IsTrue (list_all is_printable title.now) }
    ensures { OnOk result (screen.new ≡ screen.old ++ run_told title.now noted.now) }
{
    let shown = shown_lines(alloc, noted.output.as_slice())?;
    screen.spaces(INDENT)?;
    screen.said(alloc, title)?;
    screen.end()?;
    push_notes(screen, alloc, noted.notes.as_slice())?;
    push_output(screen, alloc, shown.as_slice())
}

/// Appends why a line is run again, if it is.
fn push_reason_if(
    screen: &mut Screen,
    alloc: Global,
    explainer: Explainer<'_, '_>,
    line: &CaseLine,
) -> Result<(), NoMem>
    ensures { OnOk result (screen.new ≡ screen.old ++ reason_if
        explainer.entry.case.now.recording explainer.entry.case.now.repair
        explainer.entry.summary.now.lines line.now.number line.now.reason) }
{
    match &line.reason {
        Some(reason) => push_reason(screen, alloc, explainer, line.number, reason),
        None => Ok(()),
    }
}

/// Appends what becomes of a line, and why it is run again if it is.
#[tactic(auto, unfolding(crate::specs::Why::outcome_told))]
fn push_outcome(
    screen: &mut Screen,
    alloc: Global,
    explainer: Explainer<'_, '_>,
    line: &CaseLine,
) -> Result<(), NoMem>
    ensures { OnOk result (screen.new ≡ screen.old ++ outcome_told
        explainer.entry.case.now.recording explainer.entry.case.now.repair
        explainer.entry.summary.now.lines line.now) }
{
    screen.spaces(INDENT)?;
    screen.said(alloc, fate_words(line.fate))?;
    screen.end()?;
    push_reason_if(screen, alloc, explainer, line)
}

/// Appends the repaired run of a line, if the line is run again.
fn push_repaired(
    screen: &mut Screen,
    alloc: Global,
    reason: Option<Reason>,
    noted: Option<&Noted>,
) -> Result<(), NoMem>
    ensures { OnOk result (screen.new
        ≡ screen.old ++ repaired_told reason (option_copied noted.entry)) }
{
    match (reason, noted) {
        (Some(_), Some(noted)) => push_run(screen, alloc, "as repaired", noted),
        _ => Ok(()),
    }
}

/// Appends the recorded run of a line, and the repaired one if the line is run again.
fn push_both(
    screen: &mut Screen,
    alloc: Global,
    case: &Case<'_>,
    line: &CaseLine,
    noted: &Noted,
) -> Result<(), NoMem>
    ensures { OnOk result (screen.new
        ≡ screen.old ++ both_told case.now.repair line.now noted.now) }
{
    push_run(screen, alloc, "as recorded", noted)?;
    push_repaired(screen, alloc, line.reason, case.repaired(line.number))
}

/// Appends a line in full, of which this is the recorded run.
fn push_line(
    screen: &mut Screen,
    alloc: Global,
    explainer: Explainer<'_, '_>,
    line: &CaseLine,
    noted: &Noted,
) -> Result<(), NoMem>
    ensures { OnOk result (screen.new ≡ screen.old ++ runs_told
        explainer.entry.case.now.recording explainer.entry.case.now.repair
        explainer.entry.summary.now.lines line.now noted.now) }
{
    push_obstacle(screen, alloc, line.obstacle)?;
    push_outcome(screen, alloc, explainer, line)?;
    push_both(screen, alloc, explainer.case, line, noted)
}

/// Returns the line with a number in full: its text, why it isn't understood if it isn't, what
/// becomes of it, why it is run again if it is, and then its notes in words and its output, as
/// recorded and, if it is run again, as repaired. Returns nothing if no line has the number.
pub fn detail_lines(
    alloc: Global,
    case: &Case<'_>,
    summary: &Summary,
    names: Names<'_>,
    number: u32,
) -> Result<Vec<SafeLine>, NoMem>
    ensures { IfOk result (λ lines. IsScreen (detail_told case.now.recording case.now.repair
        summary.now names.entry.labels.now number) lines.items) }
{
    let mut screen = Screen::new(alloc);
    if let (Some(line), Some(noted)) = (summary.lines.at(number), case.recorded(number)) {
        push_head(&mut screen, alloc, names, line.number, noted)?;
        push_line(&mut screen, alloc, Explainer { case, summary }, line, noted)?;
    }
    screen.lines(alloc)
}
