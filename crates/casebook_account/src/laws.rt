//! Laws of the lines of accounts, for the proofs of crates above. A law is a function without a body
//! whose contract is the law.
ghost use Rattle.std.specs.Prelude.{ℕ, IsTrue, List, map};
ghost use Rattle.retro_tree.specs.Lawful.{IsLawful};
ghost use Rattle.retro_tree.specs.declared.state.State.{State};
ghost use Rattle.retro_keep.specs.Recording.{AllRecorded, sid_in};
ghost use Rattle.retro_keep.specs.Script.{have_sessions};
ghost use Rattle.retro_keep.specs.declared.noted.Noted.{Noted};
ghost use Rattle.casebook_account.specs.Untouched.{AgreeOnTouched};

/// States that what no line touches can be left out: it changes no note and no output. Lines that
/// run as they are recorded from one state on do so from each lawful state on that has their sessions
/// and agrees with it on all that the lines touch.
#[tactic(auto, using(crate::proofs::Untouched::untouched))]
pub fn what_no_line_touches_changes_nothing()
    ensures { (lines : List (ℕ × Noted)) (s t : State) → AllRecorded lines s → IsLawful t
        → IsTrue (have_sessions t (map sid_in lines)) → AgreeOnTouched lines s t
        → AllRecorded lines t }
{}
