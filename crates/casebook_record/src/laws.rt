//! Laws of records.
ghost use Rattle.std.specs.Prelude.{◌≡◌, ℕ, List, ◌∷◌, Ok, All};
ghost use Rattle.casebook_record.specs.Fields.{fields_of};
ghost use Rattle.casebook_record.specs.Written.{HasNoNul, written};

/// States that fields are read back as they were written, if none has a NUL and there is one at
/// least.
#[tactic(auto, using(crate::proofs::ReadBack::read_back))]
pub fn written_fields_are_read_back()
    ensures { (field : List ℕ) (fields : List (List ℕ)) → All HasNoNul (field ∷ fields)
        → fields_of (written (field ∷ fields)) ≡ Ok (field ∷ fields) }
{}
