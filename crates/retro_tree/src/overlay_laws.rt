//! Laws about overlays, for the proofs of crates above. A law is a function without a body whose
//! contract is the law.
ghost use Rattle.std.specs.Prelude.{◌≡◌, ◌||◌, ℕ, Some, true, false, List};
ghost use Rattle.std.specs.List.{list_any};
ghost use Rattle.std.specs.FinMap as map;
ghost use Rattle.retro_tree.specs.Cell.{value};
ghost use Rattle.retro_tree.specs.State.{SameSessions};
ghost use Rattle.retro_tree.specs.Notes.{after, changes, AgreeOn};
ghost use Rattle.retro_tree.specs.Overlay.{OverlayMap, Overlays, Fits, AllValues};
ghost use Rattle.retro_tree.specs.Commit.{committed, makes};
ghost use Rattle.retro_tree.specs.Exact.{IsDifference, IsExact, IsTight};
ghost use Rattle.retro_tree.specs.declared.cell.Cell.{Cell};
ghost use Rattle.retro_tree.specs.declared.overlay_entry.OverlayEntry.{OverlayEntry};
ghost use Rattle.retro_tree.specs.declared.note.Note.{Note};
ghost use Rattle.retro_tree.specs.declared.state.State.{State};

/// States that the committed state has the values of the combined state. Its sessions are those of
/// the state and those that entries create, so it is the combined state with these sessions. If
/// entries create no session, it has the sessions of the state.
#[tactic(auto, using(crate::proofs::PutCells::commits))]
pub fn committed_states()
    ensures cells { (overlay : OverlayMap) (s now : State)
        → Overlays overlay s now → (c : Cell) → value c (committed overlay s) ≡ value c now }
    ensures sessions { (overlay : OverlayMap) (s : State) (sid : ℕ)
        → map.contains_key (committed overlay s).sessions sid
        ≡ (list_any (λ e. makes sid e.0 e.1) (map.entries overlay)
        || map.contains_key s.sessions sid) }
    ensures same_sessions { (overlay : OverlayMap) (s : State)
        → ((sid : ℕ) (c : Cell) (entry : OverlayEntry)
        → map.get overlay c ≡ Some entry → makes sid c entry ≡ true
        → map.contains_key s.sessions sid ≡ true)
        → SameSessions (committed overlay s) s }
    ensures state { (overlay : OverlayMap) (s now : State)
        → Overlays overlay s now
        → ((sid : ℕ) → map.contains_key now.sessions sid
        ≡ (list_any (λ e. makes sid e.0 e.1) (map.entries overlay)
        || map.contains_key s.sessions sid))
        → committed overlay s ≡ now }
{}

/// States that the committed state is the combined state if each entry fits its cell.
#[tactic(auto, using(crate::proofs::Fitting::fits_overlays))]
pub fn fitting_overlays_combine()
    ensures { (overlay : OverlayMap) (s : State)
        → Fits overlay → Overlays overlay s (committed overlay s) }
{}

/// States when an overlay still gives the combined state after the view's state changes. Cells
/// whose entries are values may change in any way. Cells without an entry must change as they do in
/// the combined state.
#[tactic(auto, using(crate::proofs::ValueEntries::moving_below))]
pub fn overlays_follow_the_state()
    ensures hidden { (overlay : OverlayMap) (below now next_below next : State)
        → AllValues overlay → Overlays overlay below now
        → ((c : Cell) → map.contains_key overlay c ≡ true → value c next ≡ value c now)
        → ((c : Cell) → map.contains_key overlay c ≡ false → value c next ≡ value c next_below)
        → Overlays overlay next_below next }
    ensures both { (overlay : OverlayMap) (below now : State) (notes : List Note)
        → Overlays overlay below now
        → ((c : Cell) → changes notes c ≡ true → map.contains_key overlay c ≡ false)
        → Overlays overlay (after notes below) (after notes now) }
{}

/// States that an exact overlay on the recorded state gives the repaired state. An overlay is exact
/// if it is tight and gives the repaired state. All its entries are values.
#[tactic(auto, using(crate::proofs::ExactOverlays::exactness))]
pub fn exact_overlays()
    ensures overlays { (overlay : OverlayMap) (s t : State)
        → IsExact overlay s t → Overlays overlay s t }
    ensures tight { (overlay : OverlayMap) (s t : State) → IsExact overlay s t → IsTight overlay s }
    ensures exact { (overlay : OverlayMap) (s t : State)
        → IsTight overlay s → Overlays overlay s t → IsExact overlay s t }
    ensures values { (overlay : OverlayMap) (s : State) → IsTight overlay s → AllValues overlay }
{}

/// States when an overlay is exact again after a line: if the entries of the cells that the
/// recorded or the new notes change are set to the differences, and no other entry changes. An
/// overlay stays exact over a line whose cells agree in both states, and over a line that changes
/// no cell with an entry.
#[tactic(auto, using(crate::proofs::ExactOverlays::stepping))]
pub fn lines_keep_overlays_exact()
    ensures step { (old new : OverlayMap) (s t : State) (recorded chosen : List Note)
        → IsExact old s t
        → ((c : Cell) → (changes recorded c || changes chosen c) ≡ true
        → IsDifference (map.get new c) (value c (after recorded s)) (value c (after chosen t)))
        → ((c : Cell) → (changes recorded c || changes chosen c) ≡ false
        → map.get new c ≡ map.get old c)
        → IsExact new (after recorded s) (after chosen t) }
    ensures agreed { (overlay : OverlayMap) (s t : State) (notes : List Note)
        → IsExact overlay s t → AgreeOn notes s t
        → IsExact overlay (after notes s) (after notes t) }
    ensures apart { (overlay : OverlayMap) (s t : State) (notes : List Note)
        → IsExact overlay s t
        → ((c : Cell) → changes notes c ≡ true → map.contains_key overlay c ≡ false)
        → IsExact overlay (after notes s) (after notes t) }
{}

/// States that in an exact overlay each entry is of its cell's kind. The overlay, committed to the
/// recorded state, makes the repaired state, if both have the same sessions.
#[tactic(auto, using(crate::proofs::ExactOverlays::making))]
pub fn exact_overlays_make_the_state()
    ensures fits { (overlay : OverlayMap) (s t : State) → IsExact overlay s t → Fits overlay }
    ensures state { (overlay : OverlayMap) (s t : State)
        → IsExact overlay s t → SameSessions s t → committed overlay s ≡ t }
{}
