//! Makes the JSON value of the tree of a state.
ghost use Rattle.std.specs.Prelude.{◌≡◌, IfOk, OnOk, true};
ghost use Rattle.serde_json.specs.View.{view};
ghost use Rattle.retro_json.specs.Values.{row_data, tree_data};
ghost use Rattle.retro_json.specs.Typed.{entry_typed, tree_typed};

use crate::writing::fields::{hex_value, path_text};
use retro_tree::{Entry, NoMem, Path, State};
use serde_json::{Value, json};
use std::alloc::Global;

/// Returns the value of a directory, `["/d"]`, or of a file, `["/f","hex"]`.
#[tactic(auto, unfolding(crate::specs::Values::row_data))]
fn row_value(alloc: Global, path: &Path, entry: &Entry) -> Result<Value, NoMem>
    ensures value { IfOk result (λ v. view v ≡ row_data (path.now, entry.now)) }
    ensures typed { OnOk result (entry_typed (path.now, entry.now) ≡ true) }
{
    let path = path_text(alloc, path)?;
    match entry {
        Entry::Dir => json!(in alloc; [path]),
        Entry::File(bytes) => {
            let bytes = hex_value(alloc, bytes.as_slice())?;
            json!(in alloc; [path, bytes])
        }
    }
}

/// Returns the value of the tree of a state: a list of directories `["/d"]` and files
/// `["/f","hex"]` without the root. Paths are ordered as lists of names.
#[tactic(auto, unfolding(crate::specs::Values::tree_data, crate::specs::Typed::tree_typed))]
pub fn tree_value(alloc: Global, state: &State) -> Result<Value, NoMem>
    ensures value { IfOk result (λ v. view v ≡ tree_data state.now.tree) }
    ensures typed { OnOk result (tree_typed state.now.tree ≡ true) }
{
    let mut rows = Vec::new(alloc);
    for (path, entry) in state.tree().iter() {
        if !path.is_root() {
            rows.push(row_value(alloc, path, entry)?)?;
        }
    }
    Ok(Value::Array(rows))
}
