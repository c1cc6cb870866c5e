//! Notes that don't hold in a state.
ghost use Rattle.std.specs.Prelude.{◌≡◌, ◌↔◌, IfOk, IfSome, IsTrue, None};
ghost use Rattle.retro_tree.specs.Ask.{answer};
ghost use Rattle.retro_tree.specs.Notes.{Holds};
ghost use Rattle.retro_tree.specs.Overlay.{Overlays};
ghost use Rattle.retro_tree.specs.declared.state.State.{State as StateValue};
ghost use Rattle.casebook_cause.specs.FailingNote.{IsFirstFailing};

use retro_tree::{Answer, Ask, NoMem, Note, Notes, Overlay, View};
use std::alloc::Global;

/// Returns the index of the first note that doesn't hold in the state of a view, or `None` if all
/// notes hold. It is a query that has another answer than the noted one, after the changes of the
/// notes before it.
pub fn first_failing_note<V: View>(
    alloc: Global,
    notes: &Notes,
    view: &V,
) -> Result<Option<usize>, NoMem>
    ensures none { IfOk result (λ found. (found ≡ None) ↔ Holds notes.now (V.state view.now)) }
    ensures some { IfOk result (λ found. IfSome found (λ index.
        IsFirstFailing index notes.now (V.state view.now))) }
{
    let mut overlay = Overlay::new(alloc);
    for (index, note) in notes.as_slice().iter().enumerate() {
        match note {
            Note::Asked(ask, noted) => {
                if !has_answer(alloc, &overlay, view, ask, noted)? {
                    return Ok(Some(index));
                }
            }
            Note::Made(change) => overlay.apply(change.copy()?)?,
        }
    }
    Ok(None)
}

/// Returns whether a query has an answer in the combined state of an overlay and a view.
fn has_answer<V: View>(
    alloc: Global,
    overlay: &Overlay,
    view: &V,
    ask: &Ask,
    noted: &Answer,
) -> Result<bool, NoMem>
    ensures { IfOk result (λ same. (now : StateValue)
        → Overlays overlay.now (V.state view.now) now
        → IsTrue same ↔ (answer ask.now now ≡ noted.now)) }
{
    let now = overlay.answer(alloc, view, ask)?;
    Ok(now.is_same(noted))
}
