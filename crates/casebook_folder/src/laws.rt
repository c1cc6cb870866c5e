//! Laws of rows and plans, for the proofs of crates above.
ghost use Rattle.std.specs.Prelude.{◌≡◌, ◌∷◌, ◌++◌, IsTrue, List, Some, false, true};
ghost use Rattle.retro_path.specs.Path.{PathValue};
ghost use Rattle.casebook_folder.specs.Remaining.{Sees, remaining_rows, undo};
ghost use Rattle.casebook_folder.specs.Moments.{IsMoment, IsRestored};
ghost use Rattle.casebook_folder.specs.Rows.{AreDistinct, AreInOrder, steps_of};
ghost use Rattle.casebook_folder.specs.Changes.{state_of, wanted_of};
ghost use Rattle.casebook_folder.specs.Plans.{AreSeenRows, fits_change, ready_rows};
ghost use Rattle.casebook_folder.specs.States.{is_ready};
ghost use Rattle.casebook_folder.specs.Steps.{Contents, Step, after_steps};

use crate::change::Change;
use crate::planned_row::PlannedRow;
use crate::row::Row;

/// States that all steps of rows restore, and that each prefix of them keeps each path at its old
/// or its new node, or at nothing while its kind changes.
pub fn rows_restore()
    ensures restored { (rows : List Row) (f : Contents) → AreDistinct rows
        → IsRestored rows f (after_steps (steps_of rows) f) }
    ensures any_moment { (rows : List Row) (f : Contents) (done left : List Step)
        → AreDistinct rows → steps_of rows ≡ done ++ left
        → IsMoment rows f (after_steps done f) }
{}

/// States that what is left of rows at any moment ends in the same folder, and that its moments are
/// those of the rows.
pub fn rows_go_on()
    ensures restored { (rows : List Row) (f g : Contents) → AreDistinct rows → IsMoment rows f g
        → IsRestored rows f (after_steps (steps_of (remaining_rows rows g)) g) }
    ensures any_moment { (rows : List Row) (f g : Contents) (done left : List Step)
        → AreDistinct rows → Sees rows f → IsMoment rows f g
        → steps_of (remaining_rows rows g) ≡ done ++ left → IsMoment rows f (after_steps done g) }
{}

/// States that undoing rows at any moment gives the old folder back, and that its moments are those
/// of the rows.
pub fn rows_are_undone()
    ensures back { (rows : List Row) (f g : Contents) → AreDistinct rows → Sees rows f
        → IsMoment rows f g
        → (q : PathValue) → after_steps (steps_of (remaining_rows (undo rows) g)) g q ≡ f q }
    ensures any_moment { (rows : List Row) (f g : Contents) (done left : List Step)
        → AreDistinct rows → Sees rows f → IsMoment rows f g
        → steps_of (remaining_rows (undo rows) g) ≡ done ++ left
        → IsMoment rows f (after_steps done g) }
{}

/// States that the rows of a plan for which the folder is ready begin with what it holds.
pub fn plans_see_the_folder()
    ensures { (plan : List PlannedRow) (f : Contents) → AreSeenRows f plan
        → Sees (ready_rows plan) f }
{}

/// States that rows in order are of distinct paths.
pub fn rows_are_distinct()
    ensures { (rows : List Row) → AreInOrder rows → AreDistinct rows }
{}

/// States that a kept row that fits a change is the row that the change has, by what the kept row
/// says that was there.
pub fn kept_rows_are_the_changes()
    ensures { (c : Change) (row : Row) → IsTrue (fits_change (Some c) row)
        → (is_ready (state_of c row.before false) ≡ true) × (row.after ≡ wanted_of c row.before) }
{}

/// States that each step of rows finds what it expects, in a folder that holds what the rows say.
pub fn steps_find_what_they_expect()
    ensures { (rows : List Row) (f : Contents) (done left : List Step) (s : Step)
        → AreDistinct rows → Sees rows f → steps_of rows ≡ done ++ s ∷ left
        → after_steps done f s.path ≡ s.before }
{}
