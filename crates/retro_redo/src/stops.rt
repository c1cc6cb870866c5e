//! Lines at which a repair stops because of their edits.
ghost use Rattle.std.specs.Prelude.{◌≡◌, OnOk};
ghost use Rattle.std.specs.FinMap as map;
ghost use Rattle.std.specs.Option.{option_copied};
ghost use Rattle.retro_redo.specs.inner.Meetings.{AddsEdited, is_met_by};

use retro_keep::{Edit, Edits};
use retro_tree::NoMem;
use std::collections::BTreeSet;

/// Returns whether a line with the given edit is met. `is_used` says whether the line reads or
/// writes a cell in which the states differ.
pub(crate) fn is_met_by(edit: Option<&Edit>, is_used: bool) -> bool
    ensures { result ≡ is_met_by (option_copied edit.entry) is_used }
{
    match edit {
        None => is_used,
        Some(Edit::Cancel(_)) => false,
        Some(Edit::Replace(_, _)) => true,
    }
}

/// Adds the edited numbers from `from` to `last`.
pub(crate) fn add_edited(
    edits: &Edits<'_>,
    from: u32,
    last: u32,
    numbers: &mut BTreeSet<u32>,
) -> Result<(), NoMem>
    ensures { OnOk result (AddsEdited (map.contains_key edits.now) from last
        numbers.old.keys numbers.new.keys) }
{
    let mut low = from;
    while let Some(number) = edits.next_from(low) {
        if number > last {
            return Ok(());
        }
        numbers.insert(number)?;
        if number == last {
            return Ok(());
        }
        low = number + 1;
    }
    Ok(())
}
