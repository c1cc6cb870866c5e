//! Laws of told lines, for the proofs of crates above. A law is a function without a body whose
//! contract is the law.
ghost use Rattle.std.specs.Prelude.{◌≡◌, ℕ, All, List, false};
ghost use Rattle.retro_tree.specs.Cell.{value};
ghost use Rattle.retro_tree.specs.declared.cell.Cell.{Cell};
ghost use Rattle.retro_tree.specs.declared.state.State.{State};
ghost use Rattle.casebook_stand_in.specs.Effect.{IsEffect};
ghost use Rattle.casebook_explain.specs.Shelves.{with_shelves};
ghost use Rattle.casebook_explain.specs.States.{SameAfterEach, is_our_cell, is_status};
ghost use Rattle.casebook_explain.specs.Told.{AreTold};
ghost use Rattle.casebook_explain.specs.declared.seen_line.SeenLine.{SeenLine};
ghost use Rattle.casebook_explain.specs.declared.told.ToldLine.{ToldLine};

/// States that the shelves of lines change nothing outside `/.casebook`.
#[tactic(auto, using(crate::proofs::Apart::apart))]
pub fn shelves_are_apart()
    ensures { (line : ℕ) (lines : List SeenLine) (now s : State) (c : Cell)
        → is_our_cell c ≡ false → value c (with_shelves line lines now s) ≡ value c s }
{}

/// States that a cell that isn't a status has the same value after each told line as after each
/// line that was seen, if it has the same value before them.
#[tactic(auto, using(crate::proofs::Alike::alike))]
pub fn told_states_are_the_observed_ones()
    ensures { (c : Cell) (lines : List SeenLine) (told : List ToldLine) (now s : State)
        → is_status c ≡ false → All (λ line. IsEffect line.effect) lines → AreTold lines told s
        → value c now ≡ value c s → SameAfterEach c lines told now s }
{}
