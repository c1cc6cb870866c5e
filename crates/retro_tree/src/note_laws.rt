//! Laws about notes, for the proofs of crates above. A law is a function without a body whose
//! contract is the law.
ghost use Rattle.std.specs.Prelude.{◌≡◌, ◌↔◌, ◌++◌, ◌||◌, true, false, List};
ghost use Rattle.retro_tree.specs.Cell.{value};
ghost use Rattle.retro_tree.specs.State.{SameSessions};
ghost use Rattle.retro_tree.specs.Lawful.{IsLawful};
ghost use Rattle.retro_tree.specs.Notes.{after, Holds, AllAllowed, touches, changes, effects};
ghost use Rattle.retro_tree.specs.declared.cell.Cell.{Cell};
ghost use Rattle.retro_tree.specs.declared.value.Value.{Value};
ghost use Rattle.retro_tree.specs.declared.note.Note.{Note};
ghost use Rattle.retro_tree.specs.declared.state.State.{State};

/// States that notes act on each cell alone: a cell's value after them follows from its value
/// before them. A cell that they don't change keeps its value.
#[tactic(auto, using(crate::proofs::NoteLaws::one_cell))]
pub fn notes_act_on_each_cell()
    ensures alone { (notes : List Note) (c : Cell) (s : State)
        → value c (after notes s) ≡ effects notes c (value c s) }
    ensures no_effect { (notes : List Note) (c : Cell) (v : Value)
        → changes notes c ≡ false → effects notes c v ≡ v }
    ensures unchanged { (notes : List Note) (c : Cell) (s : State)
        → changes notes c ≡ false → value c (after notes s) ≡ value c s }
{}

/// States that notes that hold in a state hold in every state that agrees with it on the cells of
/// the notes. The cells that notes change are among their cells.
#[tactic(auto, using(crate::proofs::NoteLaws::by_cells))]
pub fn notes_hold_by_their_cells()
    ensures agreed { (notes : List Note) (s t : State)
        → ((c : Cell) → touches notes c ≡ true → value c s ≡ value c t)
        → Holds notes s → Holds notes t }
    ensures changed { (notes : List Note) (c : Cell)
        → changes notes c ≡ true → touches notes c ≡ true }
{}

/// States that notes keep a lawful state lawful if each of their changes is lawful where it is
/// made.
#[tactic(auto, using(crate::proofs::NoteLaws::lawful_after))]
pub fn allowed_notes_keep_the_law()
    ensures { (notes : List Note) (s : State)
        → IsLawful s → AllAllowed notes s → IsLawful (after notes s) }
{}

/// States that notes leave the same sessions if each of their changes is lawful where it is made.
#[tactic(auto, using(crate::proofs::KeptSessions::kept_sessions))]
pub fn allowed_notes_keep_the_sessions()
    ensures { (notes : List Note) (s : State)
        → AllAllowed notes s → SameSessions (after notes s) s }
{}

/// States what follows for a trace that is one trace followed by another: the second starts in the
/// state in which the first ends.
#[tactic(auto, using(crate::proofs::NoteLaws::in_turn))]
pub fn notes_in_turn()
    ensures state { (xs ys : List Note) (s : State)
        → after (xs ++ ys) s ≡ after ys (after xs s) }
    ensures holding { (xs ys : List Note) (s : State)
        → Holds (xs ++ ys) s ↔ (Holds xs s × Holds ys (after xs s)) }
    ensures allowed { (xs ys : List Note) (s : State)
        → AllAllowed (xs ++ ys) s ↔ (AllAllowed xs s × AllAllowed ys (after xs s)) }
    ensures effect { (xs ys : List Note) (c : Cell) (v : Value)
        → effects (xs ++ ys) c v ≡ effects ys c (effects xs c v) }
    ensures touched { (xs ys : List Note) (c : Cell)
        → touches (xs ++ ys) c ≡ (touches xs c || touches ys c) }
    ensures changed { (xs ys : List Note) (c : Cell)
        → changes (xs ++ ys) c ≡ (changes xs c || changes ys c) }
{}
