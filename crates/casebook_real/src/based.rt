//! Texts that rest on notes which a repair doesn't compare.
ghost use Rattle.std.specs.Prelude.{IfOk};
ghost use Rattle.casebook_real.specs.Based.{HasItsBasis, IsFirstWithout};

use crate::NoMem;
use casebook_cause::first_failing_note;
use retro_history::History;
use retro_redo::Repair;
use retro_tree::Notes;
use std::alloc::Global;

/// A text of a repair, and notes on which it rests: those of a modelled line about functions,
/// aliases and options, or what a line that was run for real noted, of which this is the new text.
#[derive(Drop)]
pub struct BasedText {
    /// The number of the text.
    pub number: u32,
    /// The notes.
    pub basis: Notes,
}

/// Returns the index of the first of some texts whose basis doesn't hold in the repaired state
/// before it, or `None` if each does.
pub fn first_without_basis(
    alloc: Global,
    repair: &Repair,
    texts: &[BasedText],
) -> Result<Option<usize>, NoMem>
    ensures { IfOk result (IsFirstWithout (HasItsBasis repair.now.recording) texts.now) }
{
    let history = History::of(alloc, &repair.recording)?;
    for (index, text) in texts.iter().enumerate() {
        let state = history.at(text.number);
        if first_failing_note(alloc, &text.basis, &state)?.is_some() {
            return Ok(Some(index));
        }
    }
    Ok(None)
}
