//! What a repair lends for guesses.
ghost use Rattle.std.specs.Prelude.{◌≡◌};
ghost use Rattle.retro_tree.specs.Overlay.{Fits, Overlays};
ghost use Rattle.retro_keep.specs.Recorded.{recorded_before};
ghost use Rattle.retro_redo.specs.Ground.{shown_at};

use retro_difference::CombinedView;
use retro_history::{At, History};
use retro_keep::{Edits, Recording};
use retro_tree::Overlay;
use std::marker::Model;

/// A view of a combined state: the overlay of a repair on the recorded state before a line.
pub type Shown<'g, 'a> = CombinedView<'g, At<'g, 'a>>;

/// What a repair lends for guesses, which are runs of lines ahead of their turns.
///
/// It borrows the recording, its history, the edits, and the exact overlay: the cells in which the
/// repaired state differs from the recorded one before the next line to settle.
#[derive(Drop)]
pub struct Ground<'g, 'a, 'e> {
    recording: &'a Recording,
    edits: &'g Edits<'e>,
    history: &'g History<'a>,
    overlay: &'g Overlay,
}

impl<'g, 'a, 'e> Model for Ground<'g, 'a, 'e> {
    ghost use Rattle.std.specs.Prelude.{◌≡◌};
    ghost use Rattle.retro_tree.specs.Overlay.{Fits};
    ghost use Rattle.retro_redo.specs.Ground.{GroundValue};
    ghost use Rattle.retro_redo.specs.inner.GroundCode.{coded_ground};

    ghost Value = { GroundValue };

    ghost coded = { coded_ground };

    ghost view = { λ a. record {
      recording = a.recording.now;
      edits = a.edits.now;
      overlay = a.overlay.now;
    } };

    ghost invariant = { λ a. (a.history.now ≡ a.recording.now) × Fits a.overlay.now };
}

impl<'g, 'a, 'e> Ground<'g, 'a, 'e> {
    /// Returns the ground with the given recording, edits, history and overlay.
    pub(crate) fn new(
        recording: &'a Recording,
        edits: &'g Edits<'e>,
        history: &'g History<'a>,
        overlay: &'g Overlay,
    ) -> Ground<'g, 'a, 'e>
        requires history { history.now ≡ recording.now }
        requires fits { Fits overlay.now }
        ensures recording { result.recording ≡ recording.now }
        ensures edits { result.edits ≡ edits.now }
        ensures overlay { result.overlay ≡ overlay.now }
    {
        Ground {
            recording,
            edits,
            history,
            overlay,
        }
    }

    /// Returns the recording.
    pub fn recording(&self) -> &'a Recording
        ensures { result.now ≡ self.now.recording }
    {
        self.recording
    }

    /// Returns the history of the recording.
    pub fn history(&self) -> &'g History<'a>
        ensures { result.now ≡ self.now.recording }
    {
        self.history
    }

    /// Returns the overlay.
    pub fn overlay(&self) -> &'g Overlay
        ensures { result.now ≡ self.now.overlay }
    {
        self.overlay
    }

    /// Returns the edits.
    pub fn edits(&self) -> &'g Edits<'e>
        ensures { result.now ≡ self.now.edits }
    {
        self.edits
    }

    /// Returns a view of the combined state before the line with the given number: the overlay on
    /// the recorded state. No line needs to have the number. Takes no memory.
    #[tactic(auto, using(retro_tree::proofs::Fitting::fits_overlays))]
    pub fn view(&self, number: u32) -> Shown<'g, 'a>
        ensures state { result ≡ shown_at number self.now }
        ensures overlays { Overlays self.now.overlay (recorded_before number self.now.recording)
            result }
    {
        CombinedView::new(self.history.at(number), self.overlay)
    }
}
