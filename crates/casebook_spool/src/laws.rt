//! Laws of spools. A law is a function without a body whose contract is the law.
ghost use Rattle.std.specs.Prelude.{◌<◌, ◌≡◌, ◌++◌, ◌^◌, All, List, None, Ok, Some, ℕ, flat_map};
ghost use Rattle.std.specs.Prelude.{length, take};
ghost use Rattle.casebook_rows.specs.Rows.{fields_of};
ghost use Rattle.casebook_spool.specs.Lines.{lines_of};
ghost use Rattle.casebook_spool.specs.Listings.{listing_of};
ghost use Rattle.casebook_spool.specs.ReadBack.{IsCutOff, IsObservation, Observation, items_of};
ghost use Rattle.casebook_spool.specs.ReadBack.{text_of};
ghost use Rattle.casebook_spool.specs.Reading.{note_of};
ghost use Rattle.casebook_spool.specs.Valid.{IsNote};
ghost use Rattle.casebook_spool.specs.Written.{listing_text, note_row, row_words};
ghost use Rattle.casebook_spool.specs.declared.note.Note.{Note};

/// States that a note is read back from its row.
#[tactic(auto, using(crate::proofs::NoteTrip::note_from_row))]
pub fn notes_are_read_back()
    ensures { (note : Note) → IsNote note
        → note_of (fields_of (row_words (note_row note))) ≡ Some note }
{}

/// States that observations are read back from their texts, one after the other, whatever was cut
/// off after them, and that what is whole is their text.
#[tactic(auto, using(crate::proofs::Observations::lines_again))]
pub fn lines_are_read_back()
    ensures { (observations : List Observation) (cut_off : List ℕ) → All IsObservation observations
        → IsCutOff cut_off
        → lines_of (flat_map text_of observations ++ cut_off)
        ≡ Ok (record {
          said = flat_map items_of observations;
          whole = length (flat_map text_of observations);
        }) }
{}

/// States that a listing is read back from its text, and that no front of the text is one.
#[tactic(auto, using(crate::proofs::ListingTrip::listing_again, crate::proofs::ListingTrip::no_front),)]
pub fn listings_are_read_back()
    ensures again { (at : ℕ) (notes : List Note) → at < 2 ^ 64 → length notes < 2 ^ 64
        → All IsNote notes
        → listing_of (listing_text at notes) ≡ Some (record { at = at; said = notes }) }
    ensures front { (at : ℕ) (notes : List Note) (n : ℕ) → at < 2 ^ 64 → length notes < 2 ^ 64
        → All IsNote notes → n < length (listing_text at notes)
        → listing_of (take n (listing_text at notes)) ≡ None }
{}
