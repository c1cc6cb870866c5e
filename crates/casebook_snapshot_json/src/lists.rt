//! Writes the lists of a document, one row at a time.
ghost use Rattle.std.specs.Prelude.{◌≡◌, ◌++◌, ◌≤◌, OnOk, false};
ghost use Rattle.serde_json.specs.Data.{depth};
ghost use Rattle.serde_json.specs.Read.{max_depth};
ghost use Rattle.serde_json.specs.View.{view};
ghost use Rattle.serde_json.specs.Written.{comma_if, compact_text, has_float};
ghost use Rattle.casebook_snapshot_json.specs.Documents.{attributes_rows, skipped_rows};
ghost use Rattle.casebook_snapshot_json.specs.Documents.{tree_rows};

use crate::NoMem;
use crate::values::{attributes_value, row_value, skipped_value};
use casebook_snapshot::{Row, SkippedPath};
use retro_json::push_value;
use retro_path::Path;
use serde_json::Value;
use std::alloc::Global;
use std::collections::BTreeMap;

/// Appends a value to a text, preceded by a comma if `later`.
fn push_item(alloc: Global, later: bool, value: &Value, text: &mut Vec<u8>) -> Result<(), NoMem>
    requires float { has_float (view value.now) ≡ false }
    requires low { depth (view value.now) ≤ max_depth }
    ensures { OnOk result (text.new.items
        ≡ text.old.items ++ (comma_if later ++ compact_text (view value.now))) }
{
    if later {
        text.push(b',')?;
    }
    push_value(alloc, value, text)
}

/// Appends the tree of some rows.
#[tactic(auto, using(crate::proofs::Shapes::rows), unfolding(crate::specs::Documents::tree_rows))]
pub(crate) fn push_tree(
    alloc: Global,
    rows: &BTreeMap<Path, Row>,
    text: &mut Vec<u8>,
) -> Result<(), NoMem>
    ensures { OnOk result
        (text.new.items ≡ text.old.items ++ compact_text (tree_rows rows.now.entries)) }
{
    text.push(b'[')?;
    let mut later = false;
    for (path, row) in rows {
        if !path.is_root() {
            push_item(alloc, later, &row_value(alloc, path, &row.entry)?, text)?;
            later = true;
        }
    }
    text.push(b']')?;
    Ok(())
}

/// Appends the modes and owners of the rows that are at a path or below it.
#[tactic(auto, unfolding(crate::specs::Documents::attributes_rows))]
pub(crate) fn push_attributes(
    alloc: Global,
    at: &Path,
    rows: &BTreeMap<Path, Row>,
    text: &mut Vec<u8>,
) -> Result<(), NoMem>
    ensures { OnOk result (text.new.items
        ≡ text.old.items ++ compact_text (attributes_rows at.now rows.now.entries)) }
{
    text.push(b'[')?;
    let mut later = false;
    for (path, row) in rows {
        if path.starts_with(at) {
            push_item(
                alloc,
                later,
                &attributes_value(alloc, path, &row.attributes)?,
                text,
            )?;
            later = true;
        }
    }
    text.push(b']')?;
    Ok(())
}

/// Appends what is skipped.
#[tactic(auto, using(crate::proofs::Shapes::rows), unfolding(crate::specs::Documents::skipped_rows))]
pub(crate) fn push_skipped(
    alloc: Global,
    skipped: &[SkippedPath],
    text: &mut Vec<u8>,
) -> Result<(), NoMem>
    ensures { OnOk result
        (text.new.items ≡ text.old.items ++ compact_text (skipped_rows skipped.now)) }
{
    text.push(b'[')?;
    let mut later = false;
    for one in skipped {
        push_item(alloc, later, &skipped_value(alloc, one)?, text)?;
        later = true;
    }
    text.push(b']')?;
    Ok(())
}
