//! Views of combined states: an overlay on the state of a view.
ghost use Rattle.std.specs.Prelude.{◌≡◌, ◌↔◌, IfOk, IsTrue};
ghost use Rattle.retro_tree.specs.Notes.{Holds};
ghost use Rattle.retro_tree.specs.Overlay.{Fits};
ghost use Rattle.retro_tree.specs.Commit.{committed};
ghost use Rattle.retro_tree.specs.State.{SameSessions};
ghost use Rattle.retro_tree.specs.Exact.{IsExact};
ghost use Rattle.retro_tree.specs.declared.state.State.{State};

use retro_local::holds;
use retro_tree::{Answer, Ask, Listing, NoMem, Notes, Overlay, Path, View};
use std::alloc::Global;
use std::marker::Model;

/// A view of a combined state: an overlay on the state of another view. A cell with an entry in the
/// overlay has the entry's value, and every other cell has the value in the view. Each entry of the
/// overlay fits its cell, so the combined state is the one that a commit of the overlay makes.
#[derive(Drop)]
pub struct CombinedView<'a, V: View + Drop> {
    view: V,
    overlay: &'a Overlay,
}

impl<'a, V: View + Drop> Model for CombinedView<'a, V> {
    ghost use Rattle.retro_tree.specs.Overlay.{Fits};
    ghost use Rattle.retro_tree.specs.Commit.{committed};
    ghost use Rattle.retro_tree.specs.declared.state.State.{State};
    ghost use Rattle.retro_local.specs.inner.TraceCode.{coded_state};

    ghost Value = { State };

    ghost coded = { coded_state };

    ghost view = { λ a. committed a.overlay.now (V.state a.view) };

    ghost invariant = { λ a. Fits a.overlay.now };
}

impl<'a, V: View + Drop> CombinedView<'a, V> {
    /// Combines a view and an overlay. Takes no memory.
    pub fn new(view: V, overlay: &'a Overlay) -> Self
        requires { Fits overlay.now }
        ensures { result ≡ committed overlay.now (V.state view) }
    {
        CombinedView { view, overlay }
    }
}

impl<'a, V: View + Drop> View for CombinedView<'a, V> {
    ghost state = { λ v. v };

    #[tactic(auto, using(retro_tree::proofs::Fitting::fits_overlays))]
    fn answer(&self, alloc: Global, ask: &Ask) -> Result<Answer, NoMem> {
        self.overlay.answer(alloc, &self.view, ask)
    }

    #[tactic(auto, using(retro_tree::proofs::Fitting::fits_overlays))]
    fn children(&self, alloc: Global, path: &Path) -> Result<Listing, NoMem> {
        self.overlay.children(alloc, &self.view, path)
    }
}

/// Returns whether notes hold in the repaired state. `view` is a view of the recorded state, and
/// `overlay` is the exact overlay, so their combined state is the repaired one.
pub fn equiv<V: View>(
    alloc: Global,
    notes: &Notes,
    view: &V,
    overlay: &Overlay,
) -> Result<bool, NoMem>
    requires { Fits overlay.now }
    ensures { IfOk result (λ b. (t : State) → IsExact overlay.now (V.state view.now) t
        → SameSessions (V.state view.now) t → IsTrue b ↔ Holds notes.now t) }
{
    let repaired = CombinedView::new(view, overlay);
    holds(alloc, notes, &repaired)
}
