//! Laws about lines that are understood. A law is a function without a body whose contract is the
//! law.
ghost use Rattle.std.specs.Prelude.{◌≡◌, ◌++◌, ◌∷◌, ℕ, List, [], None, false};
ghost use Rattle.retro_keep.specs.Recording.{RecordingValue};
ghost use Rattle.retro_keep.specs.declared.noted.Noted.{Noted};
ghost use Rattle.retro_syntax.specs.Lines.{parsed};
ghost use Rattle.retro_tree.specs.declared.state.State.{State};
ghost use Rattle.casebook_profile.specs.Lines.{text_obstacle};
ghost use Rattle.casebook_profile.specs.Proper.{ProperLine, is_unknown};
ghost use Rattle.casebook_profile.specs.Scope.{Scope};

/// States that no command of an understood line is unknown or a usage fault in Retro's shell,
/// whatever state the line begins in. It says nothing of a command that runs in a state in which a
/// home directory doesn't begin with a slash.
#[tactic(auto, using(crate::proofs::ProperLines::understood_lines))]
pub fn understood_lines_have_proper_commands()
    ensures { (scope : Scope) (sid : ℕ) (text : List ℕ) (s : State)
        → scope.loops ≡ [] → text_obstacle scope text ≡ None → ProperLine sid (parsed text) s }
{}

/// States the same of each line of a recording that [`unknown_lines`](crate::unknown_lines) leaves
/// out.
#[tactic(auto, using(crate::proofs::RecordedLines::known_lines))]
pub fn known_lines_have_proper_commands()
    ensures { (r : RecordingValue) (before after : List (ℕ × Noted)) (line : ℕ × Noted) (s : State)
        → r.lines ≡ before ++ line ∷ after → is_unknown r line.0 ≡ false
        → ProperLine line.1.sid (parsed line.1.text) s }
{}
