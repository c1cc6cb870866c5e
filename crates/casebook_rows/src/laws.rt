//! Laws of rows. A law is a function without a body whose contract is the law.
ghost use Rattle.std.specs.Prelude.{◌≡◌, ◌∷◌, ◌++◌, ◌<◌, ◌≤◌, ◌^◌, ℕ, ℤ, All, List, Some};
ghost use Rattle.std.specs.Prelude.{decimal, length};
ghost use Rattle.std.specs.Prelude.{FitsSigned, IsUtf8};
ghost use Rattle.std.specs.Fmt.{signed_decimal};
ghost use Rattle.std.specs.Int.{w64};
ghost use Rattle.hex.specs.Hex.{encode_lower};
ghost use Rattle.retro_path.specs.Name.{AllNames};
ghost use Rattle.retro_path.specs.Path.{PathValue};
ghost use Rattle.retro_path.specs.Slashed.{slashed};
ghost use Rattle.casebook_rows.specs.Reading.{digest_of, path_of, signed_of, text_of, unsigned_of};
ghost use Rattle.casebook_rows.specs.Rows.{IsInRow, fields_of, newline, row_text, rows_of};
ghost use Rattle.casebook_rows.specs.Written.{escaped, octal, path_field};

/// States that each value is read back from its text.
pub fn values_are_read_back()
    ensures number { (bits n : ℕ) → bits ≤ 64 → n < 2 ^ bits
        → unsigned_of 10 bits (decimal n) ≡ Some n }
    ensures octal { (n : ℕ) → n < 2 ^ 32 → unsigned_of 8 32 (octal n) ≡ Some n }
    ensures signed { (z : ℤ) → FitsSigned w64 z → signed_of (signed_decimal z) ≡ Some z }
    ensures text { (text : List ℕ) → All (λ b. b < 256) text → text_of (escaped text) ≡ text }
    ensures path { (path : PathValue) → AllNames path → IsUtf8 (slashed path)
        → path_of (path_field path) ≡ Some path }
    ensures digest { (digest : List ℕ) → length digest ≡ 32 → All (λ b. b < 256) digest
        → digest_of (encode_lower digest) ≡ Some digest }
{}

/// States that no text of a value has a tab or a newline.
pub fn texts_stay_in_rows()
    ensures number { (n : ℕ) → n < 2 ^ 64 → All IsInRow (decimal n) }
    ensures octal { (n : ℕ) → n < 2 ^ 32 → All IsInRow (octal n) }
    ensures signed { (z : ℤ) → FitsSigned w64 z → All IsInRow (signed_decimal z) }
    ensures text { (text : List ℕ) → All IsInRow (escaped text) }
    ensures digest { (digest : List ℕ) → All IsInRow (encode_lower digest) }
{}

/// States that a row is read back as its word and fields, and that a text which begins with a row
/// and a newline is read back as this row and what follows.
pub fn rows_are_read_back()
    ensures fields { (word : List ℕ) (fields : List (List ℕ)) → All (All IsInRow) (word ∷ fields)
        → fields_of (row_text word fields) ≡ word ∷ fields }
    ensures rows { (word : List ℕ) (fields : List (List ℕ)) (rest : List ℕ)
        → All (All IsInRow) (word ∷ fields)
        → rows_of (row_text word fields ++ newline ∷ rest) ≡ row_text word fields ∷ rows_of rest }
{}
