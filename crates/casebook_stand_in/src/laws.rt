//! Laws about observed states, for the proofs of crates above. A law is a function without a body
//! whose contract is the law.
ghost use Rattle.std.specs.Prelude.{◌≡◌, None, Some, true};
ghost use Rattle.std.specs.FinMap as map;
ghost use Rattle.retro_tree.specs.Cell.{value};
ghost use Rattle.retro_tree.specs.State.{SameSessions};
ghost use Rattle.retro_tree.specs.declared.cell.Cell.{Cell};
ghost use Rattle.retro_tree.specs.declared.overlay_entry.OverlayEntry.TheVariants as entries;
ghost use Rattle.retro_tree.specs.declared.state.State.{State};
ghost use Rattle.retro_tree.specs.declared.value.Value.{Value};
ghost use Rattle.casebook_stand_in.specs.Effect.{EffectValue, IsEffect, observed};

/// States that the observed state has exactly the effect's cells set: each has the value that was
/// seen, and every other cell the value from before the line. It has the same sessions if the
/// effect's session exists.
#[tactic(auto, using(crate::proofs::Alike::observing))]
pub fn observed_states_have_the_cells()
    ensures seen { (effect : EffectValue) (s : State) (c : Cell) (v : Value)
        → IsEffect effect → map.get effect.cells c ≡ Some (entries.Value v)
        → value c (observed effect s) ≡ v }
    ensures unseen { (effect : EffectValue) (s : State) (c : Cell)
        → IsEffect effect → map.get effect.cells c ≡ None
        → value c (observed effect s) ≡ value c s }
    ensures sessions { (effect : EffectValue) (s : State)
        → IsEffect effect → map.contains_key s.sessions effect.sid ≡ true
        → SameSessions (observed effect s) s }
{}
