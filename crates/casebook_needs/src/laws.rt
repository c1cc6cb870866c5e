//! Laws of needs, for the proofs of crates above. A law is a function without a body whose contract
//! is the law.
ghost use Rattle.std.specs.Prelude.{◌≡◌, ◌≢◌, ◌↔◌, All, AllPairs, Any, List, map};
ghost use Rattle.retro_tree.specs.Ask.{answer};
ghost use Rattle.retro_tree.specs.Notes.{Holds, after};
ghost use Rattle.retro_tree.specs.declared.state.State.{State};
ghost use Rattle.casebook_needs.specs.Needs.{asked_of, needs_of, note_of};
ghost use Rattle.casebook_needs.specs.Query.{ask_of};
ghost use Rattle.casebook_needs.specs.declared.need.Need.{Need};
ghost use Rattle.casebook_needs.specs.Line.{LineValue};
ghost use Rattle.casebook_needs.specs.declared.query.Query.{Query};

/// States that each query of a rule is the query of a need.
pub fn rules_give_needs()
    ensures { (s : State) (line : LineValue) (q : Query)
        → Any (λ asked. asked.0 ≡ q) (asked_of s line)
        → Any (λ need. need.ask ≡ ask_of line.session q) (needs_of s line) }
{}

/// States that no two needs have the same query.
pub fn needs_are_asked_once()
    ensures { (s : State) (line : LineValue)
        → AllPairs (λ one other. one.ask ≢ other.ask) (needs_of s line) }
{}

/// States that the notes of needs hold in the state in which the line began, that they change no
/// state, and that notes of needs hold in a state exactly if it gives the same answers. So they can
/// stand before the notes of a run.
pub fn needs_hold()
    ensures at_first { (s : State) (line : LineValue) → Holds (map note_of (needs_of s line)) s }
    ensures anywhere { (needs : List Need) (s : State) → Holds (map note_of needs) s
        ↔ All (λ need. answer need.ask s ≡ need.answer) needs }
    ensures unchanged { (needs : List Need) (s : State) → after (map note_of needs) s ≡ s }
{}
