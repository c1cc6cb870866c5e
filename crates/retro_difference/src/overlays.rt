//! What notes do, as an overlay.
ghost use Rattle.std.specs.Prelude.{◌≡◌, IfOk};
ghost use Rattle.std.specs.FinMap as map;
ghost use Rattle.retro_tree.specs.Notes.{after, changes};
ghost use Rattle.retro_tree.specs.Overlay.{Overlays, Fits};
ghost use Rattle.retro_tree.specs.declared.cell.Cell.{Cell};
ghost use Rattle.retro_tree.specs.declared.state.State.{State};

use retro_tree::{NoMem, Note, Notes, Overlay};
use std::alloc::Global;

/// Returns what notes do, as an overlay: combined with any state it gives the state after the
/// notes. It has entries for the cells that the notes change, and no others. An entry is the value
/// that the cell gets, or the bytes that are appended to its file.
pub(crate) fn overlay_of(alloc: Global, notes: &Notes) -> Result<Overlay, NoMem>
    ensures overlays { IfOk result (λ o. (s : State) → Overlays o s (after notes.now s)) }
    ensures cells { IfOk result (λ o. (c : Cell)
        → map.contains_key o c ≡ changes notes.now c) }
    ensures fits { IfOk result (λ o. Fits o) }
{
    let mut overlay = Overlay::new(alloc);
    for note in notes.as_slice() {
        if let Note::Made(change) = note {
            overlay.apply(change.copy()?)?;
        }
    }
    Ok(overlay)
}
