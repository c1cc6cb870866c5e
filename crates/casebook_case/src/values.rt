//! The JSON value of a case.
//!
//! The clauses `typed` say what the types of the written values guarantee. The proof that a case is
//! read back needs that.
ghost use Rattle.std.specs.Prelude.{◌≡◌, IfOk, OnOk, true};
ghost use Rattle.std.specs.List.{list_all};
ghost use Rattle.serde_json.specs.View.{view};
ghost use Rattle.retro_json.specs.Typed.{are_bytes};
ghost use Rattle.casebook_case.specs.Documents.{case_data, contents_data};

use crate::NoMem;
use retro_json::hex_value;
use retro_path::Bytes;
use serde_json::{Value, json};
use std::alloc::Global;

/// Returns the value of bytes: a list of hexadecimal digits.
#[tactic(auto, unfolding(crate::specs::Documents::contents_data))]
fn contents_value(alloc: Global, contents: &[Bytes]) -> Result<Value, NoMem>
    ensures value { IfOk result (λ v. view v ≡ contents_data contents.now) }
    ensures typed { OnOk result (list_all are_bytes contents.now ≡ true) }
{
    let mut values = Vec::with_capacity(alloc, contents.len())?;
    for bytes in contents {
        values.push(hex_value(alloc, bytes.as_slice())?)?;
    }
    Ok(Value::Array(values))
}

/// Returns the value of a case.
#[tactic(auto, unfolding(crate::specs::Documents::case_data))]
pub(crate) fn case_value(
    alloc: Global,
    contents: &[Bytes],
    first: &str,
    lines: &str,
    unseen: &str,
) -> Result<Value, NoMem>
    ensures value { IfOk result (λ v.
        view v ≡ case_data contents.now first.now lines.now unseen.now) }
    ensures typed { OnOk result (list_all are_bytes contents.now ≡ true) }
{
    let contents = contents_value(alloc, contents)?;
    json!(in alloc; {
        "case": 1, "contents": contents, "first": first, "lines": lines, "unseen": unseen
    })
}
