//! Laws about histories, for the proofs of crates above. A law is a function without a body whose
//! contract is the law.
ghost use Rattle.std.specs.Prelude.{◌≡◌, ℕ, List, ◌∷◌, ◌++◌, IsTrue, nat_lt};
ghost use Rattle.std.specs.List.{list_all};
ghost use Rattle.retro_tree.specs.Cell.{value};
ghost use Rattle.retro_tree.specs.declared.cell.Cell.{Cell};
ghost use Rattle.retro_keep.specs.Recording.{IsWellFormed, RecordingValue, last_state};
ghost use Rattle.retro_keep.specs.Script.{rises_from};
ghost use Rattle.retro_keep.specs.declared.noted.Noted.{Noted};
ghost use Rattle.retro_keep.specs.Recorded.{recorded_before};
ghost use Rattle.retro_history.specs.Versions.{checkpoints, greatest_below, rolled_back};

/// States that the recorded state before a line is the state after the lines before it. Before a
/// number above all lines, it is the last state.
#[tactic(auto, using(crate::proofs::RecordedVersions::states))]
pub fn recorded_states_follow_the_lines()
    ensures line { (r : RecordingValue) (done rest : List (ℕ × Noted)) (l : ℕ × Noted)
        → IsWellFormed r → r.lines ≡ done ++ l ∷ rest
        → recorded_before l.0 r ≡ last_state done r.first }
    ensures last { (n : ℕ) (r : RecordingValue)
        → IsTrue (list_all (λ l. nat_lt l.0 n) r.lines)
        → recorded_before n r ≡ last_state r.lines r.first }
{}

/// States that a rollback of a cell to a number starts from the last checkpoint below the number,
/// and gives the recorded value before it.
#[tactic(auto, using(crate::proofs::RecordedVersions::rolling_back))]
pub fn versions_give_the_recorded_values()
    ensures value { (c : Cell) (n : ℕ) (r : RecordingValue)
        → IsWellFormed r → (rolled_back c n r).value ≡ value c (recorded_before n r) }
    ensures from { (c : Cell) (n : ℕ) (r : RecordingValue)
        → IsWellFormed r → (rolled_back c n r).from ≡ greatest_below n (checkpoints c r) }
{}

/// States that the checkpoints of a cell begin with 0, and rise.
#[tactic(auto, using(crate::proofs::RecordedVersions::checkpoints_rise))]
pub fn checkpoints_rise()
    ensures { (c : Cell) (r : RecordingValue) → IsWellFormed r
        → (rest : List ℕ) × ((checkpoints c r ≡ 0 ∷ rest) × IsTrue (rises_from 0 rest)) }
{}
