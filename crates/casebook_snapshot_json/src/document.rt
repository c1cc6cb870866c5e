//! Writes the document of a snapshot.
ghost use Rattle.std.specs.Prelude.{◌≡◌, ◌++◌, IfOk, OnOk};
ghost use Rattle.serde_json.specs.Data.{string};
ghost use Rattle.serde_json.specs.Written.{compact_text};
ghost use Rattle.casebook_snapshot_json.specs.Documents.{snapshot_data, snapshot_text};

use crate::NoMem;
use crate::lists::{push_attributes, push_skipped, push_tree};
use casebook_snapshot::Snapshot;
use retro_json::push_value;
use retro_path::Path;
use serde_json::Value;
use std::alloc::Global;

/// Appends a given text as a JSON string.
fn push_string(alloc: Global, given: &str, text: &mut Vec<u8>) -> Result<(), NoMem>
    ensures { OnOk result (text.new.items ≡ text.old.items ++ compact_text (string given.now)) }
{
    push_value(alloc, &Value::String(String::from_str(alloc, given)?), text)
}

/// Returns the document of a snapshot of a folder, of version 1: compact JSON (RFC 8259) with keys
/// in byte order, and a newline. `at` is the path of the folder in the snapshot, `root` the
/// folder's own name, and `taken` the time at which the snapshot was taken.
pub fn write_snapshot(
    alloc: Global,
    snapshot: &Snapshot,
    at: &Path,
    root: &str,
    taken: &str,
) -> Result<Vec<u8>, NoMem>
    ensures { IfOk result (λ text.
        text.items ≡ snapshot_text snapshot.now at.now root.now taken.now) }
{
    let mut text = Vec::new(alloc);
    text.extend_from_slice(b"{\"attributes\":")?;
    push_attributes(alloc, at, &snapshot.rows, &mut text)?;
    text.extend_from_slice(b",\"root\":")?;
    push_string(alloc, root, &mut text)?;
    text.extend_from_slice(b",\"skipped\":")?;
    push_skipped(alloc, snapshot.skipped.as_slice(), &mut text)?;
    text.extend_from_slice(b",\"snapshot\":1,\"taken\":")?;
    push_string(alloc, taken, &mut text)?;
    text.extend_from_slice(b",\"tree\":")?;
    push_tree(alloc, &snapshot.rows, &mut text)?;
    text.extend_from_slice(b"}\n")?;
    Ok(text)
}
