//! The steps of rows, made one by one.
ghost use Rattle.std.specs.Prelude.{◌≡◌, ◌⊎◌, [], ◌∷◌, ◌++◌, IfErr, IfSome, IsTrue, OnErr, OnOk};
ghost use Rattle.casebook_folder.specs.Errors.{is_of_look, is_of_step};
ghost use Rattle.casebook_folder.specs.Parts.{HaveNoParts, OtherPartsStay, PartsStayBesides};
ghost use Rattle.casebook_folder.specs.Rows.{left_at, removals, steps_of, writings};
ghost use Rattle.casebook_folder.specs.Steps.{step};
ghost use Rattle.casebook_folder.specs.inner.Prefix.{MakesPrefix};

use crate::folder::Folder;
use crate::folder_error::FolderError;
use crate::found::Found;
use crate::row::Row;

/// Removes what goes or changes its kind, from the last row on.
fn remove_all<F: Folder>(folder: &mut F, rows: &[Row]) -> Result<(), FolderError>
    ensures same { F.first folder.new ≡ F.first folder.old }
    ensures errors { IfErr result (λ error. IsTrue (is_of_step error)) }
    ensures ok { OnOk result (F.made folder.new ≡ F.made folder.old ++ removals rows.now) }
    ensures err { OnErr result
        (MakesPrefix (removals rows.now) (F.made folder.old) (F.made folder.new)) }
    ensures other_parts { IfSome (F.first folder.old) (λ first.
        PartsStayBesides rows.now (F.parts folder.old) (F.parts folder.new)) }
{
    let mut left = rows.len();
    while left > 0 {
        left -= 1;
        let row = &rows[left];
        if row.clears() {
            folder.put(&row.path, &row.before, &Found::Missing)?;
        }
    }
    Ok(())
}

/// Writes what is new, from the first row on.
fn write_all<F: Folder>(folder: &mut F, rows: &[Row]) -> Result<(), FolderError>
    ensures same { F.first folder.new ≡ F.first folder.old }
    ensures errors { IfErr result (λ error. IsTrue (is_of_step error)) }
    ensures ok { OnOk result (F.made folder.new ≡ F.made folder.old ++ writings rows.now) }
    ensures err { OnErr result
        (MakesPrefix (writings rows.now) (F.made folder.old) (F.made folder.new)) }
    ensures other_parts { IfSome (F.first folder.old) (λ first.
        PartsStayBesides rows.now (F.parts folder.old) (F.parts folder.new)) }
{
    for row in rows {
        if !row.after.is_missing() {
            write(folder, row)?;
        }
    }
    Ok(())
}

/// Writes what a row puts at its path, which holds what the row says, or nothing if it was removed.
fn write<F: Folder>(folder: &mut F, row: &Row) -> Result<(), FolderError>
    ensures same { F.first folder.new ≡ F.first folder.old }
    ensures errors { IfErr result (λ error. IsTrue (is_of_step error)) }
    ensures ok { let written = step row.now.path (left_at row.now) row.now.after in
        OnOk result (F.made folder.new ≡ F.made folder.old ++ written ∷ []) }
    ensures err { let written = step row.now.path (left_at row.now) row.now.after in
        OnErr result ((F.made folder.new ≡ F.made folder.old)
        ⊎ (F.made folder.new ≡ F.made folder.old ++ written ∷ [])) }
    ensures other_parts { IfSome (F.first folder.old) (λ first.
        OtherPartsStay row.now.path (F.parts folder.old) (F.parts folder.new)) }
{
    if row.clears() {
        return folder.put(&row.path, &Found::Missing, &row.after);
    }
    folder.put(&row.path, &row.before, &row.after)
}

/// Removes what stopped steps left beside the paths of rows.
pub(crate) fn clear_all<F: Folder>(folder: &mut F, rows: &[Row]) -> Result<(), FolderError>
    ensures same { F.first folder.new ≡ F.first folder.old }
    ensures made { F.made folder.new ≡ F.made folder.old }
    ensures errors { IfErr result (λ error. IsTrue (is_of_look error)) }
    ensures other_parts { IfSome (F.first folder.old) (λ first.
        PartsStayBesides rows.now (F.parts folder.old) (F.parts folder.new)) }
    ensures no_parts { OnOk result (IfSome (F.first folder.old) (λ first.
        HaveNoParts (F.parts folder.new) rows.now)) }
{
    for row in rows {
        folder.clear(&row.path)?;
    }
    Ok(())
}

/// Makes the steps of rows: removals, and then writings.
pub(crate) fn make_steps<F: Folder>(folder: &mut F, rows: &[Row]) -> Result<(), FolderError>
    ensures same { F.first folder.new ≡ F.first folder.old }
    ensures errors { IfErr result (λ error. IsTrue (is_of_step error)) }
    ensures ok { OnOk result (F.made folder.new ≡ F.made folder.old ++ steps_of rows.now) }
    ensures err { OnErr result
        (MakesPrefix (steps_of rows.now) (F.made folder.old) (F.made folder.new)) }
    ensures other_parts { IfSome (F.first folder.old) (λ first.
        PartsStayBesides rows.now (F.parts folder.old) (F.parts folder.new)) }
{
    remove_all(folder, rows)?;
    write_all(folder, rows)
}
