//! Laws of documents, for the proofs of crates above.
ghost use Rattle.std.specs.Prelude.{◌≡◌, ℕ, List, Ok, map, true};
ghost use Rattle.std.specs.List.{list_all};
ghost use Rattle.retro_path.specs.Path.{PathValue};
ghost use Rattle.casebook_snapshot.specs.declared.item.Row.{Row};
ghost use Rattle.casebook_snapshot.specs.declared.snapshot.SkippedPath.{SkippedPath};
ghost use Rattle.casebook_snapshot.specs.declared.snapshot.Snapshot.{Snapshot};
ghost use Rattle.casebook_snapshot_json.specs.Documents as written;
ghost use Rattle.casebook_snapshot_read.specs.Documents.{document_in, snapshot_view};
ghost use Rattle.casebook_snapshot_read.specs.ReadBack.{IsReadable, attributes_are_read};
ghost use Rattle.casebook_snapshot_read.specs.ReadBack.{entry_is_read, skipped_is_read};
ghost use Rattle.casebook_snapshot_read.specs.Rows.{attributes_row, rows_read, skipped_row};
ghost use Rattle.casebook_snapshot_read.specs.Rows.{skipped_view, tree_row};
ghost use Rattle.casebook_snapshot_read.specs.declared.fault.Part.TheVariants as parts;

/// States that the rows of each list are read back from the values that `write_snapshot` writes
/// them as.
pub fn written_rows_read_back()
    ensures tree { (es : List (PathValue × Row)) → list_all entry_is_read es ≡ true
        → rows_read parts.Tree tree_row (map written.tree_row es)
        ≡ Ok (map (λ e. (e.0, e.1.entry)) es) }
    ensures attributes { (es : List (PathValue × Row)) → list_all attributes_are_read es ≡ true
        → rows_read parts.Attributes attributes_row (map written.attributes_row es)
        ≡ Ok (map (λ e. (e.0, e.1.attributes)) es) }
    ensures skipped { (ss : List SkippedPath) → list_all skipped_is_read ss ≡ true
        → rows_read parts.Skipped skipped_row (map written.skipped_data ss)
        ≡ Ok (map skipped_view ss) }
{}

/// States that a snapshot is read back from the text that `write_snapshot` writes of it, with the
/// path of its folder, the folder's own name and the time.
pub fn written_documents_read_back()
    ensures { (s : Snapshot) (at : PathValue) (root taken : List ℕ) → IsReadable s at root taken
        → document_in (written.snapshot_text s at root taken)
        ≡ Ok (record { snapshot = snapshot_view s; at = at; root = root; taken = taken }) }
{}
