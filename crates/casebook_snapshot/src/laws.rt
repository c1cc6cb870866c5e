//! Laws of snapshots, for the proofs of crates above.
ghost use Rattle.std.specs.Prelude.{◌≡◌, ◌⊎◌, List, Some, false};
ghost use Rattle.retro_path.specs.Path.{PathValue};
ghost use Rattle.casebook_snapshot.specs.Items.{Contents, row_for, is_missing};
ghost use Rattle.casebook_snapshot.specs.Snapshots.{HasRow, IsBelowSkipped, IsLawfulSnapshot};
ghost use Rattle.casebook_snapshot.specs.Snapshots.{IsSnapshot, IsTreeLike, row_at};
ghost use Rattle.casebook_snapshot.specs.declared.item.Row.{Row};
ghost use Rattle.casebook_snapshot.specs.declared.snapshot.Snapshot.{Snapshot};

/// States that each path of a folder that holds something has a row, or is at or below a skipped
/// path, and never both; and that a row has what the folder holds.
pub fn snapshots_are_complete()
    ensures covered { (f : Contents) (skip : List PathValue) (s : Snapshot) → IsTreeLike f
        → IsSnapshot f skip s → (q : PathValue) → is_missing (f q) ≡ false
        → HasRow s q ⊎ IsBelowSkipped s q }
    ensures apart { (f : Contents) (skip : List PathValue) (s : Snapshot) → IsSnapshot f skip s
        → (q : PathValue) → HasRow s q → IsBelowSkipped s q → ⊥ }
    ensures exact { (f : Contents) (skip : List PathValue) (s : Snapshot) → IsSnapshot f skip s
        → (q : PathValue) (h : Row) → row_at s q ≡ Some h → row_for (f q) ≡ Some h }
{}

/// States that the rows of a snapshot are those of a lawful tree.
pub fn snapshots_are_lawful()
    ensures { (f : Contents) (skip : List PathValue) (s : Snapshot) → IsSnapshot f skip s
        → IsLawfulSnapshot s }
{}
