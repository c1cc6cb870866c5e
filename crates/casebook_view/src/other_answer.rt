//! Queries that have another answer in the repaired state.
ghost use Rattle.std.specs.Prelude.{◌≡◌, ◌∷◌, [], IfOk, OnOk, option_map};
ghost use Rattle.retro_tree.specs.Ask.{answer};
ghost use Rattle.retro_tree.specs.Notes.{after};
ghost use Rattle.retro_tree.specs.Overlay.{Overlays};
ghost use Rattle.retro_tree.specs.declared.state.State.{State as StateValue};
ghost use Rattle.casebook_view.specs.OtherAnswers.{answers_in, answers_of, answers_to, answers_value};

use crate::NoMem;
use crate::case::Case;
use crate::reason::Reason;
use retro_history::At;
use retro_tree::{Answer, Ask, Note, Overlay};
use std::alloc::Global;

/// A query that has another answer in the repaired state than the noted one. Borrows the recording.
#[derive(Drop)]
pub struct OtherAnswer<'a> {
    /// The query.
    pub ask: &'a Ask,
    /// The noted answer.
    pub recorded: &'a Answer,
    /// The answer in the repaired state before the line, after the changes that the line made
    /// before the query.
    pub repaired: Answer,
}

/// Makes the change that a note is, if it is one.
fn add_note(overlay: &mut Overlay, note: &Note) -> Result<(), NoMem>
    ensures { OnOk result ((below now : StateValue) → Overlays overlay.old below now
        → Overlays overlay.new below (after (note.now ∷ []) now)) }
{
    if let Note::Made(change) = note {
        overlay.apply(change.copy()?)?;
    }
    Ok(())
}

/// Returns the answer to a query after the changes of notes.
fn answer_after(
    alloc: Global,
    notes: &[Note],
    view: &At<'_, '_>,
    ask: &Ask,
) -> Result<Answer, NoMem>
    ensures { IfOk result (λ a. a ≡ answer ask.now (after notes.now view.now)) }
{
    let mut overlay = Overlay::new(alloc);
    for note in notes {
        add_note(&mut overlay, note)?;
    }
    overlay.answer(alloc, view, ask)
}

/// Returns a query with its noted answer and its answer after the changes of notes.
fn with_answers<'a>(
    alloc: Global,
    notes: &[Note],
    view: &At<'_, '_>,
    ask: &'a Ask,
    recorded: &'a Answer,
) -> Result<OtherAnswer<'a>, NoMem>
    ensures { IfOk result (λ found. answers_value found
        ≡ answers_to ask.entry.now recorded.entry.now (after notes.now view.now)) }
{
    Ok(OtherAnswer {
        ask,
        recorded,
        repaired: answer_after(alloc, notes, view, ask)?,
    })
}

/// Returns the query that is the note at an index with both its answers, or `None` if there is no
/// query.
#[tactic(auto, using(crate::proofs::Answering::at_index))]
fn answers_in<'a>(
    alloc: Global,
    notes: &'a [Note],
    view: &At<'_, '_>,
    index: usize,
) -> Result<Option<OtherAnswer<'a>>, NoMem>
    ensures { IfOk result (λ found. option_map answers_value found
        ≡ answers_in index notes.entry.now view.now) }
{
    if index >= notes.len() {
        return Ok(None);
    }
    match &notes[index] {
        Note::Asked(ask, recorded) => {
            let found = with_answers(alloc, &notes[..index], view, ask, recorded)?;
            Ok(Some(found))
        }
        Note::Made(_) => Ok(None),
    }
}

/// Returns the query of a line that fails by a reason with both its answers, or `None` if no query
/// fails.
pub fn answers_of<'a>(
    alloc: Global,
    case: &Case<'a>,
    number: u32,
    reason: &Reason,
) -> Result<Option<OtherAnswer<'a>>, NoMem>
    ensures { IfOk result (λ found. option_map answers_value found
        ≡ answers_of case.now.recording case.now.repair number reason.now) }
{
    let Some(index) = reason.why.failing() else {
        return Ok(None);
    };
    match case.recorded(number) {
        Some(noted) => answers_in(
            alloc,
            noted.notes.as_slice(),
            &case.repaired_before(number),
            index,
        ),
        None => Ok(None),
    }
}
