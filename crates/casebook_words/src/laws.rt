//! Laws about lines and differences. A law is a function without a body whose contract is the law.
ghost use Rattle.std.specs.Prelude.{◌≡◌, ℕ, List, MatchOption};
ghost use Rattle.casebook_words.specs.Difference.{IsFirst, first_difference};
ghost use Rattle.casebook_words.specs.Lines.{AreLinesOf, lines_of};

/// States that the lines of a text make it, that none has a newline inside, and that all but the
/// last end with one.
pub fn lines_make_the_text()
    ensures { (text : List ℕ) → AreLinesOf text (lines_of text) }
{}

/// States that the first difference of two texts is the first: all lines before it are the same,
/// those at it aren't, and there is none only if all lines are the same.
#[tactic(auto, using(crate::proofs::FirstDifference::first_holds))]
pub fn first_differences_are_first()
    ensures { (old new : List (List ℕ))
        → MatchOption (first_difference old new) (old ≡ new) (IsFirst old new) }
{}
