//! Laws about causes and compensations. A law is a function without a body whose contract is the
//! law.
ghost use Rattle.std.specs.Prelude.{◌≡◌, ◌≢◌, ◌∷◌, ◌⊎◌, ℕ, List, None, Option, Some, drop, take};
ghost use Rattle.retro_tree.specs.Ask.{answer};
ghost use Rattle.retro_tree.specs.Notes.{Holds, after};
ghost use Rattle.retro_tree.specs.declared.answer.Answer.{Answer};
ghost use Rattle.retro_tree.specs.declared.ask.Ask.{Ask};
ghost use Rattle.retro_tree.specs.declared.note.Note.{Note};
ghost use Rattle.retro_tree.specs.declared.note.Note.TheVariants.{Asked};
ghost use Rattle.retro_tree.specs.declared.state.State.{State};
ghost use Rattle.retro_keep.specs.Recorded.{recorded_before};
ghost use Rattle.retro_keep.specs.Recording.{IsWellFormed, RecordingValue, noted_at};
ghost use Rattle.retro_keep.specs.declared.edit.Edit.{Edit};
ghost use Rattle.retro_keep.specs.declared.noted.Noted.{Noted};
ghost use Rattle.retro_redo.specs.Repair.{IsRepair, compensations_in};
ghost use Rattle.retro_redo.specs.Settled.{AreSettled};
ghost use Rattle.retro_redo.specs.declared.repair.Repair.{Repair};
ghost use Rattle.retro_redo.specs.declared.verdict.Verdict.TheVariants.{Cancelled, Redone};
ghost use Rattle.casebook_cause.specs.Cause.{IsCause, verdict_on};
ghost use Rattle.casebook_cause.specs.Compensations.{AreParts, leaks, tellings};
ghost use Rattle.casebook_cause.specs.FailingNote.{IsFirstFailing};

/// States that the compensations of a repair are those of cancelled lines and those of all other
/// lines, merged in order.
#[tactic(auto, using(crate::proofs::Parts::both_parts))]
pub fn leaks_and_tellings_are_all()
    ensures { (r : RecordingValue) (repair : Repair)
        → AreParts (leaks r repair) (tellings r repair) (compensations_in r repair) }
{}

/// States that the notes of a line that a repair runs again don't hold before it in the repaired
/// recording, unless its text is replaced. So `first_failing_note` finds one that fails.
#[tactic(auto, using(crate::proofs::Redone::redone_fails))]
pub fn redone_lines_have_a_failing_note()
    ensures { (edit : ℕ → Option Edit) (r : RecordingValue) (repair : Repair) (n : ℕ)
        (noted : Noted) → IsWellFormed r → IsRepair edit r repair
        → noted_at n r.lines ≡ Some noted → edit n ≡ None
        → verdict_on n repair ≡ Some Redone
        → ¬ (Holds noted.notes (recorded_before n repair.recording)) }
{}

/// States that a query that fails first has another answer than in every state in which the notes
/// hold, in both after the changes of the notes before it. So by the clause `exists` of `cause_of`
/// it has a cause.
#[tactic(auto, using(crate::proofs::Failing::answers_differ))]
pub fn failing_queries_have_another_answer()
    ensures { (index : ℕ) (notes later : List Note) (q : Ask) (a : Answer) (s t : State)
        → Holds notes s → IsFirstFailing index notes t → drop index notes ≡ Asked q a ∷ later
        → answer q (after (take index notes) s) ≢ answer q (after (take index notes) t) }
{}

/// States that a cause, in a recording and in the recording of its repair, is a line that the
/// repair cancels or runs again. It is earlier than what it causes, so each chain of causes ends at
/// a line whose edit is given.
#[tactic(auto, using(crate::proofs::CauseVerdicts::cancelled_or_redone))]
pub fn causes_are_cancelled_or_redone()
    ensures { (edit : ℕ → Option Edit) (r : RecordingValue) (repair : Repair) (q : Ask) (n m : ℕ)
        → AreSettled edit r repair → IsCause q n r repair.recording m
        → (verdict_on m repair ≡ Some Cancelled)
        ⊎ (verdict_on m repair ≡ Some Redone) }
{}
