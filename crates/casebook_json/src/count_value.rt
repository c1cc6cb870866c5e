//! How many lines have which fate, as JSON.
ghost use Rattle.std.specs.Prelude.{◌≡◌, IfOk};
ghost use Rattle.serde_json.specs.View.{view};
ghost use Rattle.casebook_json.specs.Counts.{counts_data};

use crate::NoMem;
use casebook_summary::Summary;
use casebook_view::Fate;
use serde_json::{Value, json};
use std::alloc::Global;

/// Returns how many lines have which fate, by fate.
#[tactic(auto, unfolding(crate::specs::Counts::counts_data))]
pub(crate) fn counts_value(alloc: Global, summary: &Summary) -> Result<Value, NoMem>
    ensures { IfOk result (λ v. view v ≡ counts_data summary.now.lines) }
{
    json!(in alloc; {
        "alike": summary.count(Fate::Alike),
        "cancelled": summary.count(Fate::Cancelled),
        "changed": summary.count(Fate::Changed),
        "kept": summary.count(Fate::Kept),
        "untouched": summary.count(Fate::Untouched)
    })
}
