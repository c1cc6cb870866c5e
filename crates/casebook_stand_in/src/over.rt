//! Views of a state with some cells set.
ghost use Rattle.std.specs.Prelude.{◌≡◌};
ghost use Rattle.retro_tree.specs.Overlay.{Fits};
ghost use Rattle.retro_tree.specs.Commit.{committed};

use crate::NoMem;
use retro_tree::{Answer, Ask, Listing, Overlay, Path, State, View};
use std::alloc::Global;
use std::marker::Model;

/// A view of the state that an overlay makes of a state. Each entry of the overlay fits its cell.
#[derive(Drop)]
pub(crate) struct Over<'a> {
    state: &'a State,
    overlay: &'a Overlay,
}

impl<'a> Model for Over<'a> {
    ghost use Rattle.retro_tree.specs.Overlay.{Fits};
    ghost use Rattle.retro_tree.specs.Commit.{committed};
    ghost use Rattle.retro_tree.specs.declared.state.State.{State};
    ghost use Rattle.retro_local.specs.inner.TraceCode.{coded_state};

    ghost Value = { State };

    ghost coded = { coded_state };

    ghost view = { λ a. committed a.overlay.now a.state.now };

    ghost invariant = { λ a. Fits a.overlay.now };
}

impl<'a> Over<'a> {
    /// Makes a view of a state and an overlay. Takes no memory.
    pub(crate) fn new(state: &'a State, overlay: &'a Overlay) -> Over<'a>
        requires { Fits overlay.now }
        ensures { result ≡ committed overlay.now state.now }
    {
        Over { state, overlay }
    }
}

impl<'a> View for Over<'a> {
    ghost state = { λ v. v };

    #[tactic(auto, using(retro_tree::proofs::Fitting::fits_overlays))]
    fn answer(&self, alloc: Global, ask: &Ask) -> Result<Answer, NoMem> {
        self.overlay.answer(alloc, self.state, ask)
    }

    #[tactic(auto, using(retro_tree::proofs::Fitting::fits_overlays))]
    fn children(&self, alloc: Global, path: &Path) -> Result<Listing, NoMem> {
        self.overlay.children(alloc, self.state, path)
    }
}
