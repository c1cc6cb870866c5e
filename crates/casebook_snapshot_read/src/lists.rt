//! Reads the lists of a document, row by row.
ghost use Rattle.std.specs.Prelude.{◌≡◌, map};
ghost use Rattle.retro_value.specs.Borrowed.{value_data};
ghost use Rattle.casebook_snapshot_read.specs.Reads.{Reads};
ghost use Rattle.casebook_snapshot_read.specs.Rows.{attributes_row, rows_read, skipped_row};
ghost use Rattle.casebook_snapshot_read.specs.Rows.{skipped_view, tree_row};
ghost use Rattle.casebook_snapshot_read.specs.declared.fault.Part.TheVariants as parts;

use crate::fault::{Part, SnapshotFault};
use crate::rows::{attributes_row, skipped_row, tree_row};
use casebook_folder::Attributes;
use casebook_snapshot::SkippedPath;
use json::Value;
use retro_path::Path;
use retro_tree::Entry;
use std::alloc::Global;

/// Reads the directories and files.
pub(crate) fn read_tree(
    alloc: Global,
    rows: &[Value<'_>],
) -> Result<Vec<(Path, Entry)>, SnapshotFault>
    ensures { Reads (λ read. map (λ row. row) read.items) result
        (rows_read parts.Tree tree_row (map value_data rows.now)) }
{
    let mut read = Vec::new(alloc);
    for row in rows {
        match tree_row(alloc, row)? {
            Some(one) => read.push(one)?,
            None => {
                return Err(SnapshotFault::BadRow {
                    part: Part::Tree,
                    place: read.len() + 1,
                });
            }
        }
    }
    Ok(read)
}

/// Reads the modes and owners.
pub(crate) fn read_attributes(
    alloc: Global,
    rows: &[Value<'_>],
) -> Result<Vec<(Path, Attributes)>, SnapshotFault>
    ensures { Reads (λ read. map (λ row. row) read.items) result
        (rows_read parts.Attributes attributes_row (map value_data rows.now)) }
{
    let mut read = Vec::new(alloc);
    for row in rows {
        match attributes_row(alloc, row)? {
            Some(one) => read.push(one)?,
            None => {
                return Err(SnapshotFault::BadRow {
                    part: Part::Attributes,
                    place: read.len() + 1,
                });
            }
        }
    }
    Ok(read)
}

/// Reads what is skipped.
pub(crate) fn read_skipped(
    alloc: Global,
    rows: &[Value<'_>],
) -> Result<Vec<SkippedPath>, SnapshotFault>
    ensures { Reads (λ read. map skipped_view read.items) result
        (rows_read parts.Skipped skipped_row (map value_data rows.now)) }
{
    let mut read = Vec::new(alloc);
    for row in rows {
        match skipped_row(alloc, row)? {
            Some(one) => read.push(one)?,
            None => {
                return Err(SnapshotFault::BadRow {
                    part: Part::Skipped,
                    place: read.len() + 1,
                });
            }
        }
    }
    Ok(read)
}
