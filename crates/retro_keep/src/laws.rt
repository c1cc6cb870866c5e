//! Laws of edits and recordings. Each is the contract of a function with an empty body.
ghost use Rattle.std.specs.Prelude.{◌≡◌, ◌++◌, ℕ, List, None, is_some, true};
ghost use Rattle.retro_keep.specs.Edit.{edit_of, edited};
ghost use Rattle.retro_keep.specs.Recording.{IsRecordingOf, RecordingValue, recorded_outcome};
ghost use Rattle.retro_keep.specs.Runs.{outcome};
ghost use Rattle.retro_keep.specs.Script.{ScriptValue};
ghost use Rattle.retro_keep.specs.declared.edit.Edit.{Edit as EditValue};
ghost use Rattle.retro_keep.specs.declared.script.ScriptLine.{ScriptLine as ScriptLineValue};

/// States that a recording of a script has the last state and the outputs of running the script's
/// lines one by one.
#[tactic(auto, using(crate::proofs::Recorded::recorded_runs))]
pub fn recordings_run_their_scripts()
    ensures { (script : ScriptValue) (r : RecordingValue)
        → IsRecordingOf script r → outcome script.lines script.first ≡ recorded_outcome r }
{}

/// States that two lists of edits that name different lines give the same lines when they are made
/// in turn and when they are made together.
#[tactic(auto, using(crate::proofs::Edited::edited_in_turn))]
pub fn edits_in_turn_edit_both()
    ensures { (first second : List EditValue) (lines : List ScriptLineValue)
        → ((n : ℕ) → is_some (edit_of first n) ≡ true → edit_of second n ≡ None)
        → edited (edit_of second) (edited (edit_of first) lines)
        ≡ edited (edit_of (first ++ second)) lines }
{}
