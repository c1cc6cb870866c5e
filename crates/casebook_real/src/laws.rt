//! The law of lines that are run for real. A law is a function without a body whose contract is the
//! law.
ghost use Rattle.std.specs.Prelude.{◌≡◌, ◌∷◌, ◌++◌, ℕ, Bool, List, None, Option, Some, length, map};
ghost use Rattle.std.specs.List.{slice_get};
ghost use Rattle.retro_keep.specs.Edit.{edit_of};
ghost use Rattle.retro_keep.specs.Recorded.{recorded_before};
ghost use Rattle.retro_keep.specs.Recording.{IsWellFormed, RecordingValue};
ghost use Rattle.retro_keep.specs.declared.edit.Edit.{Edit};
ghost use Rattle.retro_redo.specs.Repair.{IsRepair, repaired_state};
ghost use Rattle.retro_redo.specs.declared.repair.Repair.{Repair};
ghost use Rattle.casebook_real.specs.Lines.{AreLinesOf, Parts, TypedLine, placed, remaining_lines};
ghost use Rattle.casebook_real.specs.Lines.{texts_of};
ghost use Rattle.casebook_real.specs.Next.{IsUpTo, next_to_run};
ghost use Rattle.casebook_real.specs.Played.{played, shell};
ghost use Rattle.casebook_real.specs.World.{Meaning, World, run_all};

/// States that a repair with nothing left to be run for real has the state of really running all
/// lines but those that are left out, one by one, from the first state.
#[tactic(auto, using(crate::proofs::Law::all_for_real))]
pub fn repairs_hold_for_real_lines()
    ensures { (real : Meaning) (observed : ℕ → Bool) (edits : List Edit) (r : RecordingValue)
        (repair : Repair) (lines : List TypedLine) → IsWellFormed r
        → IsRepair (edit_of edits) r repair → AreLinesOf r observed lines
        → World real (edit_of edits) lines r.first
        → next_to_run (edit_of edits) observed repair ≡ None
        → repaired_state repair ≡ run_all real (remaining_lines (edit_of edits) lines) r.first }
{}

/// States that the state before a number, in the recording of a repair, is that of really running
/// the lines before it but those that are left out, if no text before the number has to be run for
/// real. So the next line is run in the state in which it would have been typed.
#[tactic(auto, using(crate::proofs::Law::first_for_real))]
pub fn states_before_the_next_hold_for_real_lines()
    ensures { (real : Meaning) (observed : ℕ → Bool) (edits : List Edit) (r : RecordingValue)
        (repair : Repair) (n : ℕ) (lines rest : List TypedLine) → IsWellFormed r
        → IsRepair (edit_of edits) r repair → AreLinesOf r observed (lines ++ rest)
        → Parts n lines rest → World real (edit_of edits) lines r.first
        → IsUpTo (next_to_run (edit_of edits) observed repair) n
        → recorded_before n repair.recording
        ≡ run_all real (remaining_lines (edit_of edits) lines) r.first }
{}

/// States that the repaired state before a line, of which the premises on the world speak, is that
/// before the line's number in the recording of the repair.
#[tactic(auto, using(crate::proofs::Placing::state_before))]
pub fn lines_are_placed_in_the_repaired_recording()
    ensures { (edit : ℕ → Option Edit) (r : RecordingValue) (repair : Repair) (n : ℕ)
        (lines : List TypedLine) (l : TypedLine) (rest : List TypedLine) → IsRepair edit r repair
        → texts_of (lines ++ l ∷ rest) ≡ r.lines → Parts n lines (l ∷ rest)
        → slice_get (placed edit (lines ++ l ∷ rest) r.first) (length lines)
        ≡ Some (record { line = l; before = recorded_before n repair.recording }) }
{}

/// States that Retro's shell itself meets the premises on the world: for a recording of it, with
/// each line as a modelled one, and any edits. So they can be met, and what the law then says is
/// that an exact repair runs the edited lines.
pub fn retro_shell_meets_the_premises()
    ensures lines { (edit : ℕ → Option Edit) (observed : ℕ → Bool) (r : RecordingValue)
        → IsWellFormed r → AreLinesOf r observed (map (played edit) r.lines) }
    ensures world { (edit : ℕ → Option Edit) (r : RecordingValue)
        → World shell edit (map (played edit) r.lines) r.first }
{}
