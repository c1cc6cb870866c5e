//! A view that is an overlay over another view.
use crate::states::changes;
use retro_tree::{Answer, Ask, Change, Listing, NoMem, Overlay, Path, View};
use std::alloc::Global;
use std::marker::Model;
use std::test::Fail;

/// A view of another view's state after changes, which an overlay holds.
#[derive(Drop)]
pub struct Shown<'a, V: View> {
    below: &'a V,
    overlay: Overlay,
}

impl<'a, V: View> Model for Shown<'a, V> {
    ghost use Rattle.retro_tree.specs.Commit.{committed};
    ghost use Rattle.retro_tree.specs.Overlay.{Fits};
    ghost use Rattle.retro_tree.specs.declared.state.State.{State};
    ghost use Rattle.retro_local.specs.inner.TraceCode.{coded_state};

    ghost Value = { State };

    ghost coded = { coded_state };

    ghost view = { λ shown. committed shown.overlay (V.state shown.below.now) };

    ghost invariant = { λ shown. Fits shown.overlay };
}

impl<'a, V: View> Shown<'a, V> {
    /// Returns a view of the state after the changes that words say.
    pub fn of(alloc: Global, below: &'a V, words: &str) -> Result<Self, Fail> {
        let mut shown = Self::new(alloc, below);
        for change in changes(alloc, words)? {
            shown.apply(change)?;
        }
        Ok(shown)
    }

    /// Returns a view of the same state.
    fn new(alloc: Global, below: &'a V) -> Self {
        Shown {
            below,
            overlay: Overlay::new(alloc),
        }
    }

    /// Makes a change.
    fn apply(&mut self, change: Change) -> Result<(), NoMem> {
        self.overlay.apply(change)
    }
}

#[tactic(auto, using(retro_tree::proofs::Fitting::fits_overlays))]
impl<'a, V: View> View for Shown<'a, V> {
    ghost state = { λ state. state };

    fn answer(&self, alloc: Global, ask: &Ask) -> Result<Answer, NoMem> {
        self.overlay.answer(alloc, self.below, ask)
    }

    fn children(&self, alloc: Global, path: &Path) -> Result<Listing, NoMem> {
        self.overlay.children(alloc, self.below, path)
    }
}
