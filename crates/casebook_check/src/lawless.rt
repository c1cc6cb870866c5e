//! Trees that aren't lawful.
ghost use Rattle.std.specs.Prelude.{◌≡◌, Err, IfOk, IsTrue, map};
ghost use Rattle.retro_value.specs.Borrowed.{value_data};
ghost use Rattle.retro_json.specs.ReadsAs.{seen};
ghost use Rattle.retro_json.specs.Rows.{tree_of_rows};
ghost use Rattle.retro_json.specs.TreePart.{row_of, tree_of};
ghost use Rattle.retro_json.specs.Worst.{every};
ghost use Rattle.retro_json.specs.declared.fault.Refusal.TheVariants.{LawlessTree};

use crate::NoMem;
use json::Value;
use retro_json::{LogFault, OrRefusal, Refusal, read_tree_row, tree_of_rows, with_item};
use retro_tree::{Entry, Path};
use retro_value::items_in;
use std::alloc::Global;

/// Reads the rows of a tree, or returns their worst refusal.
#[tactic(auto, using(retro_json::proofs::Worst::validating_starts))]
fn tree_rows(alloc: Global, items: &[Value<'_>]) -> Result<OrRefusal<Vec<(Path, Entry)>>, NoMem>
    ensures { IfOk result (λ rows.
        seen (λ v. v.items) rows ≡ every row_of (map value_data items.now)) }
{
    let mut rows = Ok(Vec::new(alloc));
    for item in items {
        let row = read_tree_row(alloc, item)?;
        rows = with_item(rows, row)?;
    }
    Ok(rows)
}

/// Returns whether rows make no lawful tree.
fn are_lawless(alloc: Global, rows: Vec<(Path, Entry)>) -> Result<bool, NoMem>
    ensures { IfOk result (λ yes. IsTrue yes → tree_of_rows rows.items ≡ Err LawlessTree) }
{
    match tree_of_rows(alloc, rows) {
        Err(LogFault::Refused(Refusal::LawlessTree)) => Ok(true),
        Err(LogFault::NoMem) => Err(NoMem),
        _ => Ok(false),
    }
}

/// Returns whether the value of a tree is refused because the tree isn't lawful.
pub(crate) fn is_lawless(alloc: Global, value: &Value<'_>) -> Result<bool, NoMem>
    ensures { IfOk result (λ yes. IsTrue yes → tree_of (value_data value.now) ≡ Err LawlessTree) }
{
    let Some(items) = items_in(value) else {
        return Ok(false);
    };
    match tree_rows(alloc, items)? {
        Ok(rows) => are_lawless(alloc, rows),
        Err(_) => Ok(false),
    }
}
