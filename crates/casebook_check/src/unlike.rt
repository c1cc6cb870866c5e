//! Lines that aren't as a log notes them, in words.
ghost use Rattle.std.specs.Prelude.{◌≡◌, ◌++◌, IfOk, OnOk, Option, ℕ, nat_eq};
ghost use Rattle.std.specs.Cmp.Lexicographic.{pointwise};
ghost use Rattle.std.specs.Option.{option_copied};
ghost use Rattle.casebook_words.specs.Words.{query_words};
ghost use Rattle.casebook_check.specs.Texts.{AreUnlikeLines, IsOtherwiseAt, asked_words};
ghost use Rattle.casebook_check.specs.Texts.{both_notes, head_words, note_or_end, notes_words};
ghost use Rattle.casebook_check.specs.Texts.{otherwise_words, outputs_words};

use crate::NoMem;
use crate::note_lists::first_difference;
use casebook_about::Labels;
use casebook_text::SafeLine;
use casebook_words::{push_cut, push_difference, push_note, push_query};
use retro_keep::{Noted, Unlike};
use retro_shell::Run;
use retro_tree::{Answer, Ask, Bytes, Node, Note};
use std::alloc::Global;

/// How many bytes of a line are shown.
const TEXT_LIMIT: usize = 59;

/// Returns which line isn't as noted.
#[tactic(auto, unfolding(crate::specs::Texts::head_words))]
fn head_line(alloc: Global, labels: &Labels, number: u32, noted: &Noted) -> Result<SafeLine, NoMem>
    ensures { IfOk result (λ line. line ≡ head_words labels.now number noted.now) }
{
    let mut line = SafeLine::new(alloc);
    line.push_ascii("line ")?;
    line.push_number(alloc, u64::from(number))?;
    line.push_ascii(" of ")?;
    line.push_line(&labels.name_of(alloc, noted.sid)?)?;
    line.push_ascii(" isn't as noted: ")?;
    push_cut(alloc, &mut line, noted.text.bytes(), TEXT_LIMIT)?;
    Ok(line)
}

/// Appends a note, or that there are no more of them.
fn push_note_or_end(alloc: Global, line: &mut SafeLine, note: Option<&Note>) -> Result<(), NoMem>
    ensures { OnOk result (line.new ≡ line.old ++ note_or_end (option_copied note.entry)) }
{
    match note {
        Some(note) => push_note(alloc, line, note),
        None => line.push_ascii("nothing more"),
    }
}

/// Appends two notes at one place.
#[tactic(auto, unfolding(crate::specs::Texts::both_notes))]
fn push_both(
    alloc: Global,
    line: &mut SafeLine,
    one: Option<&Note>,
    two: Option<&Note>,
) -> Result<(), NoMem>
    ensures { OnOk result (line.new
        ≡ line.old ++ both_notes (option_copied one.entry) (option_copied two.entry)) }
{
    push_note_or_end(alloc, line, one)?;
    line.push_ascii(" / ")?;
    push_note_or_end(alloc, line, two)
}

/// Returns a query in words.
fn query_line(alloc: Global, ask: &Ask) -> Result<SafeLine, NoMem>
    ensures { IfOk result (λ line. line ≡ query_words ask.now) }
{
    let mut line = SafeLine::new(alloc);
    push_query(alloc, &mut line, ask)?;
    Ok(line)
}

/// Returns whether two queries are said alike.
fn are_said_alike(alloc: Global, one: &Ask, two: &Ask) -> Result<bool, NoMem>
    ensures { IfOk result (λ yes. yes
        ≡ pointwise nat_eq (query_words one.now) (query_words two.now)) }
{
    let one = query_line(alloc, one)?;
    let two = query_line(alloc, two)?;
    Ok(one.as_str() == two.as_str())
}

/// Appends how the answers of two notes differ, if both are queries that are said alike, and else
/// both notes.
#[tactic(auto, unfolding(crate::specs::Texts::notes_words, crate::specs::Texts::asked_words))]
fn push_notes(
    alloc: Global,
    line: &mut SafeLine,
    one: Option<&Note>,
    two: Option<&Note>,
) -> Result<(), NoMem>
    ensures { OnOk result (line.new
        ≡ line.old ++ notes_words (option_copied one.entry) (option_copied two.entry)) }
{
    if let (Some(Note::Asked(ask, a)), Some(Note::Asked(other, b))) = (one, two) {
        if are_said_alike(alloc, ask, other)? {
            push_query(alloc, line, ask)?;
            return push_difference(alloc, line, a, b);
        }
    }
    push_both(alloc, line, one, two)
}

/// Appends how two outputs differ.
#[tactic(auto, unfolding(crate::specs::Texts::outputs_words))]
fn push_outputs(alloc: Global, line: &mut SafeLine, one: &Bytes, two: &Bytes) -> Result<(), NoMem>
    ensures { OnOk result (line.new ≡ line.old ++ outputs_words one.now two.now) }
{
    let one = Answer::Bytes(Node::File(one.copy()?));
    let two = Answer::Bytes(Node::File(two.copy()?));
    line.push_ascii("output")?;
    push_difference(alloc, line, &one, &two)
}

/// Appends how what is noted and what a run notes differ, or else how what they print does.
#[tactic(auto, unfolding(crate::specs::Texts::otherwise_words))]
fn push_otherwise(alloc: Global, line: &mut SafeLine, noted: &Noted, run: &Run) -> Result<(), NoMem>
    ensures { OnOk result ((index : Option ℕ) × IsOtherwiseAt noted.now run.now index
        × (line.new ≡ line.old ++ otherwise_words index noted.now run.now)) }
{
    let (noted_notes, run_notes) = (noted.notes.as_slice(), run.notes().as_slice());
    match first_difference(noted_notes, run_notes) {
        Some(index) => push_notes(alloc, line, noted_notes.get(index), run_notes.get(index)),
        None => push_outputs(alloc, line, &noted.output, run.output()),
    }
}

/// Returns how a line isn't as noted: which line it is, and the first note that differs or what the
/// line printed, as noted and as it runs.
pub fn unlike_lines(
    alloc: Global,
    labels: &Labels,
    noted: &Noted,
    unlike: &Unlike,
) -> Result<Vec<SafeLine>, NoMem>
    ensures { IfOk result (λ lines.
        AreUnlikeLines labels.now unlike.now.number noted.now unlike.now.run lines.items) }
{
    let mut line = SafeLine::new(alloc);
    line.push_ascii("    noted / run again: ")?;
    push_otherwise(alloc, &mut line, noted, &unlike.run)?;
    let mut lines = Vec::new(alloc);
    lines.push(head_line(alloc, labels, unlike.number, noted)?)?;
    lines.push(line)?;
    Ok(lines)
}
