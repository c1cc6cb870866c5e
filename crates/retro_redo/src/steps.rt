//! The steps by which all lines of a repair are settled.
ghost use Rattle.std.specs.Prelude.{◌≡◌, IfOk, None};
ghost use Rattle.retro_keep.specs.Recording.{IsRecordingOf, script_in};
ghost use Rattle.retro_redo.specs.Progress.{edit_in, next_line};
ghost use Rattle.retro_redo.specs.Repair.{IsRepair};
ghost use Rattle.retro_redo.specs.Settled.{IsSettled};

use crate::edited::run_edited;
use crate::outcome::chosen_recording;
use crate::repair::Repair;
use crate::step::Step;
use crate::tally::Tally;
use crate::verdict::SettledLine;
use retro_keep::{Edits, Recording};
use retro_tree::{NoMem, Overlay};
use std::alloc::Global;
use std::marker::Model;

/// The steps by which a repair settled its lines, what they did with the lines, and the exact
/// overlay of the cells in which the repaired state differs from the recorded one after them.
#[derive(Drop)]
pub struct Steps<'a, 'e> {
    pub(crate) recording: &'a Recording,
    pub(crate) edits: Edits<'e>,
    pub(crate) choices: Vec<Step>,
    pub(crate) lines: Vec<SettledLine>,
    pub(crate) overlay: Overlay,
}

impl<'a, 'e> Model for Steps<'a, 'e> {
    ghost use Rattle.retro_redo.specs.Progress.{ProgressValue};
    ghost use Rattle.retro_redo.specs.inner.ProgressCode.{coded_progress};
    ghost use Rattle.retro_redo.specs.inner.Keeping.{Keeps};

    ghost Value = { ProgressValue };

    ghost coded = { coded_progress };

    ghost view = { λ a. record {
      recording = a.recording.now;
      edits = a.edits;
      choices = a.choices.items;
    } };

    ghost invariant = { λ a. Keeps (record {
      recording = a.recording.now;
      edits = a.edits;
      choices = a.choices.items;
    }) a.overlay a.lines.items };
}

impl<'a, 'e> Steps<'a, 'e> {
    /// Returns the repair. All lines must be settled.
    ///
    /// If the recording is what running its lines gives, the repair's state and outputs are those
    /// of running the edited lines. For any other recording, the repair is what the steps make of
    /// the recorded notes. If the changes of the lines as chosen aren't lawful, all edited lines
    /// are run again instead.
    pub fn finish(self, alloc: Global, tally: Tally) -> Result<Repair, NoMem>
        requires { next_line self ≡ None }
        ensures tally { IfOk result (λ repair. repair.tally ≡ tally) }
        ensures repair { IfOk result (λ repair.
            IsRecordingOf (script_in self.entry.recording) self.entry.recording
            → IsRepair (edit_in self.entry) self.entry.recording repair) }
        ensures settled { IfOk result (λ repair. IsSettled (edit_in self.entry)
            self.entry.recording self.entry.choices repair) }
    {
        let Steps {
            recording,
            edits,
            choices,
            lines,
            overlay,
        } = self;
        // For the prover: the contract of `lines` says that the recording is well formed.
        let _ = recording.lines();
        let Some(repaired) = chosen_recording(alloc, recording, choices, overlay)? else {
            return run_edited(alloc, recording, &edits, tally);
        };
        Ok(Repair {
            lines,
            tally,
            recording: repaired,
        })
    }
}
