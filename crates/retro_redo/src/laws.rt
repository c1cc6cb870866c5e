//! Laws about repairs, for the proofs of crates above. A law is a function without a body whose
//! contract is the law.
ghost use Rattle.std.specs.Prelude.{◌≡◌, ◌++◌, ℕ, List, IsTrue, None, Option, is_some};
ghost use Rattle.std.specs.Prelude.{length, map, true};
ghost use Rattle.retro_tree.specs.Exact.{IsExact};
ghost use Rattle.retro_tree.specs.Lawful.{IsLawful};
ghost use Rattle.retro_tree.specs.Overlay.{OverlayMap};
ghost use Rattle.retro_tree.specs.declared.state.State.{State};
ghost use Rattle.retro_keep.specs.Recording.{AllRecorded, RecordingValue, sid_in};
ghost use Rattle.retro_keep.specs.Edit.{edit_of};
ghost use Rattle.retro_keep.specs.Script.{have_sessions};
ghost use Rattle.retro_keep.specs.declared.edit.Edit.{Edit};
ghost use Rattle.retro_keep.specs.declared.noted.Noted.{Noted};
ghost use Rattle.retro_redo.specs.Final.{IsFinal};
ghost use Rattle.retro_redo.specs.Progress.{Settles};
ghost use Rattle.retro_redo.specs.Repair.{IsRepair, IsRepairOf};
ghost use Rattle.retro_redo.specs.declared.repair.Repair.{Repair};
ghost use Rattle.retro_redo.specs.declared.step.Step.{Step};

/// States that settling all lines gives what running the edited lines gives, if each line gets a
/// step that it allows: the last state, the outputs, the outputs that differ, the verdicts and the
/// states on the way. The lines as chosen are a recording of the edited lines.
#[tactic(auto, using(crate::proofs::Final::settles_final))]
pub fn repairs_come_to_the_whole_run()
    ensures { (edit : ℕ → Option Edit) (lines : List (ℕ × Noted)) (steps : List Step)
        (s t : State) → AllRecorded lines s → IsLawful t
        → IsTrue (have_sessions t (map sid_in lines)) → Settles edit lines steps s t
        → length steps ≡ length lines → IsFinal edit lines steps s t }
{}

/// States what a second repair gives, which makes a second list of edits in the recording of a
/// first repair, if the two lists name different lines. Its state and its outputs are those of
/// running the lines with the edits of both lists. Its recording is one of these lines, and begins
/// at the same number as the first one.
#[tactic(auto, using(crate::proofs::InTurn::repaired_in_turn))]
pub fn repairs_in_turn_repair_both()
    ensures { (first second : List Edit) (r : RecordingValue) (one two : Repair)
        → ((n : ℕ) → is_some (edit_of first n) ≡ true → edit_of second n ≡ None)
        → IsRepair (edit_of first) r one → IsRepair (edit_of second) one.recording two
        → IsRepairOf (edit_of (first ++ second)) r two }
{}

/// States that two states have only one exact overlay.
pub fn exact_overlays_are_one()
    ensures { (one two : OverlayMap) (s t : State) → IsExact one s t → IsExact two s t
        → one ≡ two }
{}
