//! Notes replayed over a state.
ghost use Rattle.std.specs.Prelude.{◌≡◌, ◌↔◌, IfOk, OnOk, OnErr, IsTrue};
ghost use Rattle.retro_tree.specs.Notes.{after, Holds};

use retro_tree::{NoMem, Note, Notes, Overlay, State, View};
use std::alloc::Global;

/// Returns whether notes hold in the state of a view.
pub fn holds<V: View>(alloc: Global, notes: &Notes, view: &V) -> Result<bool, NoMem>
    ensures { IfOk result (λ b. IsTrue b ↔ Holds notes.now (V.state view.now)) }
{
    let mut overlay = Overlay::new(alloc);
    for note in notes.as_slice() {
        match note {
            Note::Asked(ask, answer) => {
                let now = overlay.answer(alloc, view, ask)?;
                if !now.is_same(answer) {
                    return Ok(false);
                }
            }
            Note::Made(change) => overlay.apply(change.copy()?)?,
        }
    }
    Ok(true)
}

/// Makes the changes of notes in a state. Copies only what the changes write.
pub fn apply_notes(alloc: Global, notes: &Notes, state: &mut State) -> Result<(), NoMem>
    ensures ok { OnOk result (state.new ≡ after notes.now state.old) }
    ensures err { OnErr result (state.new ≡ state.old) }
{
    let mut overlay = Overlay::new(alloc);
    for note in notes.as_slice() {
        if let Note::Made(change) = note {
            overlay.apply(change.copy()?)?;
        }
    }
    overlay.commit(alloc, state)
}
