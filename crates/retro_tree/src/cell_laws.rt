//! Laws about cells, changes and answers, for the proofs of crates above. A law is a function
//! without a body whose contract is the law.
ghost use Rattle.std.specs.Prelude.{◌≡◌, ◌≢◌, ℕ, List, [], ◌∷◌, ◌++◌, true, is_some};
ghost use Rattle.std.specs.FinMap as map;
ghost use Rattle.std.specs.List.{list_any};
ghost use Rattle.std.specs.List.Sorted.{IsStrictlySortedBy};
ghost use Rattle.retro_tree.specs.Order.{text_cmp, text_eq};
ghost use Rattle.retro_tree.specs.Path.{PathValue};
ghost use Rattle.retro_tree.specs.Tree.{Tree};
ghost use Rattle.retro_tree.specs.Cell.{value};
ghost use Rattle.retro_tree.specs.Ask.{names_in, answer, supports};
ghost use Rattle.retro_tree.specs.Change.{apply, cell_of, written};
ghost use Rattle.retro_tree.specs.declared.cell.Cell.{Cell};
ghost use Rattle.retro_tree.specs.declared.ask.Ask.{Ask};
ghost use Rattle.retro_tree.specs.declared.change.Change.{Change};
ghost use Rattle.retro_tree.specs.declared.state.State.{State};

/// States that a change writes its own cell, by the cell's value, and leaves every other cell
/// unchanged. This holds in every state, even if the session of the change doesn't exist.
#[tactic(auto, using(crate::proofs::CellLaw::cell_laws))]
pub fn changes_write_one_cell()
    ensures own { (change : Change) (s : State) → value (cell_of change) (apply change s)
        ≡ written change (value (cell_of change) s) }
    ensures unchanged { (change : Change) (c : Cell) (s : State)
        → c ≢ cell_of change → value c (apply change s) ≡ value c s }
{}

/// States that an answer depends only on the cells that `supports` names.
#[tactic(auto, using(crate::proofs::Agree::agreeing))]
pub fn answers_depend_on_cells()
    ensures { (ask : Ask) (s t : State)
        → ((c : Cell) → supports ask c ≡ true → value c s ≡ value c t)
        → answer ask s ≡ answer ask t }
{}

/// States that two states are equal if they have the same sessions and the same values of all
/// cells.
#[tactic(auto, using(crate::proofs::Agree::same_state))]
pub fn cells_make_the_state()
    ensures { (s t : State) → ((c : Cell) → value c s ≡ value c t)
        → ((sid : ℕ) → map.contains_key s.sessions sid ≡ map.contains_key t.sessions sid)
        → s ≡ t }
{}

/// States that the names of the children of a path are in byte order, each once, and that they are
/// exactly the names of the children that exist.
#[tactic(auto, using(crate::proofs::Children::listings))]
pub fn listings_name_the_children()
    ensures sorted { (p : PathValue) (tree : Tree)
        → IsStrictlySortedBy text_cmp (names_in p tree) }
    ensures exact { (p : PathValue) (name : List ℕ) (tree : Tree)
        → list_any (text_eq name) (names_in p tree) ≡ is_some (map.get tree (p ++ name ∷ [])) }
{}
