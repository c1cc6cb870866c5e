//! Writes the text of a document value by value.
ghost use Rattle.std.specs.Prelude.{◌≡◌, ◌≤◌, ◌++◌, OnOk, false};
ghost use Rattle.serde_json.specs.Data.{depth};
ghost use Rattle.serde_json.specs.Read.{max_depth};
ghost use Rattle.serde_json.specs.View.{view};
ghost use Rattle.serde_json.specs.Written.{compact_text, has_float};
ghost use Rattle.retro_json.specs.ReadBack.{IsReadBack};

use retro_tree::NoMem;
use serde_json::Value;
use std::alloc::Global;

/// Appends a value to a text, as compact JSON.
pub fn push_value(alloc: Global, value: &Value, text: &mut Vec<u8>) -> Result<(), NoMem>
    requires float { has_float (view value.now) ≡ false }
    requires low { depth (view value.now) ≤ max_depth }
    ensures text { OnOk result (text.new.items ≡ text.old.items ++ compact_text (view value.now)) }
    ensures read_back { OnOk result (IsReadBack (view value.now)) }
{
    let written = value.to_vec(alloc)?;
    text.extend_from_slice(written.as_slice())?;
    Ok(())
}
