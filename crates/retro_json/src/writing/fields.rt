//! Makes the JSON values of bytes, paths, texts and numbers.
//!
//! The clauses `typed` say what the types of the written values guarantee: bytes are below 2^8,
//! numbers are below 2^32, and names are names of files. The proofs that a written value is read
//! back as the same value need that.
ghost use Rattle.std.specs.Prelude.{◌≡◌, ◌∷◌, IfOk, OnOk, string_bytes, true};
ghost use Rattle.serde_json.specs.Data.{string};
ghost use Rattle.serde_json.specs.View.{view};
ghost use Rattle.retro_json.specs.Values.{hex_data, number_data, path_text};
ghost use Rattle.retro_json.specs.NoteValues.{path_data};
ghost use Rattle.retro_json.specs.Typed.{are_bytes, are_names, is_u32, is_u8};

use retro_tree::{NoMem, Path};
use serde_json::Value;
use std::alloc::Global;

/// Returns bytes as a text of lower-case hexadecimal digits.
pub fn hex_value(alloc: Global, bytes: &[u8]) -> Result<Value, NoMem>
    ensures value { IfOk result (λ v. view v ≡ hex_data bytes.now) }
    ensures typed { OnOk result (are_bytes bytes.now ≡ true) }
{
    Ok(Value::String(hex::encode(alloc, bytes)?))
}

/// Returns the text of a path: `/a/b`, and `/` for the root.
#[tactic(auto, using(crate::proofs::Names::written_text))]
pub fn path_text(alloc: Global, path: &Path) -> Result<String, NoMem>
    ensures text { IfOk result (λ text. string_bytes text ≡ path_text path.now) }
    ensures typed { OnOk result (are_names path.now ≡ true) }
{
    let text = path.as_str();
    if path.is_root() {
        return String::from_str(alloc, "/");
    }
    String::from_str(alloc, text)
}

/// Returns the JSON value of a path: its text.
pub fn path_value(alloc: Global, path: &Path) -> Result<Value, NoMem>
    ensures value { IfOk result (λ v. view v ≡ path_data path.now) }
    ensures typed { OnOk result (are_names path.now ≡ true) }
{
    Ok(Value::String(path_text(alloc, path)?))
}

/// Returns a text as a JSON string.
pub fn text_value(alloc: Global, text: &str) -> Result<Value, NoMem>
    ensures { IfOk result (λ v. view v ≡ string text.now) }
{
    Ok(Value::String(String::from_str(alloc, text)?))
}

/// Returns a number as a JSON number.
pub fn number_value(number: u32) -> Value
    ensures value { view result ≡ number_data number }
    ensures typed { is_u32 number ≡ true }
{
    Value::from(number)
}

/// Returns an exit status as a JSON number.
pub fn status_value(status: u8) -> Value
    ensures value { view result ≡ number_data status }
    ensures typed { is_u8 status ≡ true }
{
    Value::from(status)
}
