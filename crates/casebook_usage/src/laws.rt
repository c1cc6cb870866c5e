//! Laws about uses of utilities. A law is a function without a body whose contract is the law.
ghost use Rattle.std.specs.FinMap as map;
ghost use Rattle.std.specs.Prelude.{◌≡◌, ◌≢◌, ℕ, Bool, List, None, false, true};
ghost use Rattle.retro_tree.specs.Path.{PathValue};
ghost use Rattle.retro_tree.specs.Session.{session_in};
ghost use Rattle.retro_tree.specs.declared.state.State.{State};
ghost use Rattle.retro_utils.specs.Outcomes.{usage};
ghost use Rattle.retro_utils.specs.Output.{appended, opened};
ghost use Rattle.retro_utils.specs.Utility.{meaning};
ghost use Rattle.retro_utils.specs.declared.input.Input.{Input};
ghost use Rattle.retro_utils.specs.declared.mode.Mode.{Mode};
ghost use Rattle.retro_utils.specs.declared.place.Place.{Place};
ghost use Rattle.retro_text.specs.Utility.{name_of};
ghost use Rattle.retro_text.specs.declared.utility.Utility.{Utility};
ghost use Rattle.casebook_usage.specs.Forms.{takes};
ghost use Rattle.casebook_usage.specs.Obstacles.{use_obstacle};
ghost use Rattle.casebook_usage.specs.Shape.{AllBecome, ShapeValue};

/// States that a use that is understood is in a form of the utility, whatever fields its words
/// become.
#[tactic(auto, using(crate::proofs::Fitting::understood_fits))]
pub fn understood_uses_fit()
    ensures { (u : Utility) (has_input : Bool) (words : List ShapeValue) (fields : List (List ℕ))
        → use_obstacle u has_input words ≡ None → AllBecome words fields
        → takes u fields ≡ true }
{}

/// States that a call with fields that the utility takes is no usage fault, in any state.
#[tactic(auto, using(crate::proofs::UsageFaults::fitting_calls))]
pub fn fitting_calls_are_no_usage_faults()
    ensures { (u : Utility) (fields : List (List ℕ)) (input : Input) (place : Place) (s : State)
        → takes u fields ≡ true → (meaning u fields input place s).1 ≢ usage (name_of u) }
{}

/// States that a call with fields that the utility doesn't take is a usage fault, in any state.
#[tactic(auto, using(crate::proofs::UsageFaults::other_calls))]
pub fn other_calls_are_usage_faults()
    ensures { (u : Utility) (fields : List (List ℕ)) (input : Input) (place : Place) (s : State)
        → takes u fields ≡ false → meaning u fields input place s ≡ (s, usage (name_of u)) }
{}

/// States that no utility sets a variable, in any session.
#[tactic(auto, using(crate::proofs::Sessions::no_variable_set))]
pub fn calls_set_no_variables()
    ensures { (u : Utility) (fields : List (List ℕ)) (input : Input) (place : Place) (s : State)
        (sid : ℕ) (name : List ℕ)
        → map.get (session_in sid (meaning u fields input place s).0.sessions).vars name
        ≡ map.get (session_in sid s.sessions).vars name }
{}

/// States that opening a file for output and appending to it leave the sessions.
#[tactic(auto, using(crate::proofs::Sessions::output_sessions))]
pub fn outputs_leave_sessions()
    ensures opened { (mode : Mode) (p : PathValue) (s : State)
        → (opened mode p s).0.sessions ≡ s.sessions }
    ensures appended { (text : List ℕ) (p : PathValue) (s : State)
        → (appended text p s).0.sessions ≡ s.sessions }
{}
