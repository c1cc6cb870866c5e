//! The JSON values of rows.
//!
//! The clauses `typed` say what the types of the written values guarantee. The proof that an undo
//! file is read back needs that.
ghost use Rattle.std.specs.Prelude.{◌≡◌, IfOk, OnOk, string_bytes, true};
ghost use Rattle.std.specs.List.{list_all};
ghost use Rattle.serde_json.specs.View.{view};
ghost use Rattle.retro_json.specs.Typed.{are_names};
ghost use Rattle.retro_json.specs.Values.{path_text};
ghost use Rattle.casebook_folder.specs.declared.found.Found.TheVariants.{Dir, File};
ghost use Rattle.casebook_undo.specs.Documents.{node_data, row_data, rows_data, undo_data};
ghost use Rattle.casebook_undo.specs.inner.Typed.{node_typed, row_typed};

use crate::NoMem;
use casebook_folder::{Attributes, Found, Row};
use retro_json::{hex_value, number_value};
use retro_path::{Bytes, Path};
use serde_json::{Value, json};
use std::alloc::Global;

/// Returns the text of a path: `/a/b`, and `/` for the root.
#[tactic(auto, using(retro_json::proofs::Names::written_text))]
fn path_text(alloc: Global, path: &Path) -> Result<String, NoMem>
    ensures text { IfOk result (λ text. string_bytes text ≡ path_text path.now) }
    ensures typed { OnOk result (are_names path.now ≡ true) }
{
    let text = path.as_str();
    if path.is_root() {
        return String::from_str(alloc, "/");
    }
    String::from_str(alloc, text)
}

/// Returns the value of a directory: `["dir",mode,uid,gid]`.
fn dir_value(alloc: Global, attributes: &Attributes) -> Result<Value, NoMem>
    ensures value { IfOk result (λ v. view v ≡ node_data (Dir attributes.now)) }
    ensures typed { OnOk result (node_typed (Dir attributes.now) ≡ true) }
{
    let mode = number_value(attributes.mode);
    let uid = number_value(attributes.uid);
    let gid = number_value(attributes.gid);
    json!(in alloc; ["dir", mode, uid, gid])
}

/// Returns the value of a file: `["file",hex,mode,uid,gid]`.
fn file_value(alloc: Global, bytes: &Bytes, attributes: &Attributes) -> Result<Value, NoMem>
    ensures value { IfOk result (λ v. view v ≡ node_data (File bytes.now attributes.now)) }
    ensures typed { OnOk result (node_typed (File bytes.now attributes.now) ≡ true) }
{
    let bytes = hex_value(alloc, bytes.as_slice())?;
    let mode = number_value(attributes.mode);
    let uid = number_value(attributes.uid);
    let gid = number_value(attributes.gid);
    json!(in alloc; ["file", bytes, mode, uid, gid])
}

/// Returns the value of what a path holds. Nothing is `null`, and what is blocked is `["blocked"]`,
/// which no undo file has.
fn node_value(alloc: Global, found: &Found) -> Result<Value, NoMem>
    ensures value { IfOk result (λ v. view v ≡ node_data found.now) }
    ensures typed { OnOk result (node_typed found.now ≡ true) }
{
    match found {
        Found::Missing => Ok(Value::Null),
        Found::Dir(attributes) => dir_value(alloc, attributes),
        Found::File(bytes, attributes) => file_value(alloc, bytes, attributes),
        Found::Blocked(_) => json!(in alloc; ["blocked"]),
    }
}

/// Returns the value of a row: `[path,before,after]`.
#[tactic(auto, unfolding(crate::specs::Documents::row_data))]
fn row_value(alloc: Global, row: &Row) -> Result<Value, NoMem>
    ensures value { IfOk result (λ v. view v ≡ row_data row.now) }
    ensures typed { OnOk result (row_typed row.now ≡ true) }
{
    let path = path_text(alloc, &row.path)?;
    let before = node_value(alloc, &row.before)?;
    let after = node_value(alloc, &row.after)?;
    json!(in alloc; [path, before, after])
}

/// Returns the value of rows, in their order.
#[tactic(auto, unfolding(crate::specs::Documents::rows_data))]
fn rows_value(alloc: Global, rows: &[Row]) -> Result<Value, NoMem>
    ensures value { IfOk result (λ v. view v ≡ rows_data rows.now) }
    ensures typed { OnOk result (list_all row_typed rows.now ≡ true) }
{
    let mut values = Vec::new(alloc);
    for row in rows {
        values.push(row_value(alloc, row)?)?;
    }
    Ok(Value::Array(values))
}

/// Returns the value of the undo file of rows. `at` is the path of the folder in their trees.
#[tactic(auto, unfolding(crate::specs::Documents::undo_data))]
pub(crate) fn undo_value(alloc: Global, rows: &[Row], at: &Path) -> Result<Value, NoMem>
    ensures value { IfOk result (λ v. view v ≡ undo_data at.now rows.now) }
    ensures typed { OnOk result (list_all row_typed rows.now ≡ true) }
    ensures names { OnOk result (are_names at.now ≡ true) }
{
    let rows = rows_value(alloc, rows)?;
    let at = path_text(alloc, at)?;
    json!(in alloc; {"at": at, "rows": rows, "undo": 1})
}
