//! Runs the lines of a recording, to compare them with what is noted.
ghost use Rattle.std.specs.Prelude.{◌≡◌, IfOk, IfSome, IsTrue, None, true};
ghost use Rattle.std.specs.FinMap as map;
ghost use Rattle.retro_tree.specs.Lawful.{IsLawful};
ghost use Rattle.retro_tree.specs.Notes.{after};
ghost use Rattle.retro_keep.specs.Recording.{IsRecorded, IsRecordingOf, script_in};
ghost use Rattle.retro_keep.specs.Unlike.{IsFirstUnlike, IsUnlike};

use crate::noted::Noted;
use crate::recording::Recording;
use retro_shell::{Run, apply_notes, run_line};
use retro_tree::{NoMem, State};
use std::alloc::Global;

/// A line that notes or prints something else than a recording says.
#[derive(Drop)]
pub struct Unlike {
    /// The line's number.
    pub number: u32,
    /// What the line notes and prints, run in the state that the lines before it leave.
    pub run: Run,
}

/// Returns whether each line of a recording, run in the state before it, notes and prints exactly
/// what the recording has. If so, the recording is one of the script that its lines make.
pub fn check(alloc: Global, recording: &Recording) -> Result<bool, NoMem>
    ensures { IfOk result (λ yes. yes ≡ true
        → IsRecordingOf (script_in recording.now) recording.now) }
{
    Ok(first_unlike(alloc, recording)?.is_none())
}

/// Returns the first line of a recording that notes or prints something else than the recording
/// says, or `None` if there is none. Then it is a recording of its own lines.
pub fn first_unlike(alloc: Global, recording: &Recording) -> Result<Option<Unlike>, NoMem>
    ensures none { IfOk result (λ found. found ≡ None
        → IsRecordingOf (script_in recording.now) recording.now) }
    ensures some { IfOk result (λ found. IfSome found (IsFirstUnlike recording.now)) }
{
    let mut state = recording.first().copy()?;
    for line in recording.lines() {
        if let Some(run) = run_unlike(alloc, &mut state, &line.1)? {
            return Ok(Some(Unlike {
                number: line.0,
                run,
            }));
        }
    }
    Ok(None)
}

/// Runs a line in a state. Returns what it notes and prints if that isn't what is noted; then the
/// state is unchanged. Otherwise returns `None`, and the noted changes are made in the state.
#[tactic(auto, using(retro_shell::proofs::Sessions::after_notes))]
fn run_unlike(alloc: Global, state: &mut State, noted: &Noted) -> Result<Option<Run>, NoMem>
    requires lawful { IsLawful state.old }
    requires session { IsTrue (map.contains_key state.old.sessions noted.now.sid) }
    ensures recorded { IfOk result (λ found. found ≡ None → IsRecorded noted.now state.old) }
    ensures state { IfOk result (λ found. found ≡ None
        → state.new ≡ after noted.now.notes state.old) }
    ensures unlike { IfOk result (λ found. IfSome found (λ run. IsUnlike noted.now run state.old)) }
{
    let run = run_line(alloc, &*state, noted.sid, noted.text.as_str())?;
    if !run.notes().is_same(&noted.notes) || *run.output() != noted.output {
        return Ok(Some(run));
    }
    apply_notes(alloc, &noted.notes, state)?;
    Ok(None)
}
