//! The document.
ghost use Rattle.std.specs.Prelude.{◌≡◌, IfOk, Some, string_bytes};
ghost use Rattle.serde_json.specs.Read.{read};
ghost use Rattle.serde_json.specs.View.{view};
ghost use Rattle.casebook_view.specs.Sources.{source_view};
ghost use Rattle.casebook_json.specs.Summary.{summary_data, summary_text};

use crate::NoMem;
use crate::parts::Parts;
use casebook_about::Labels;
use casebook_summary::Summary;
use casebook_view::Source;
use serde_json::Value;
use std::alloc::Global;

/// Returns the JSON value of what a repair would do.
#[tactic(auto, unfolding(crate::specs::Summary::summary_data))]
fn summary_value(
    alloc: Global,
    source: Source<'_>,
    summary: &Summary,
    labels: &Labels,
) -> Result<Value, NoMem>
    ensures { IfOk result (λ v.
        view v ≡ summary_data summary.now (source_view source.entry) labels.now) }
{
    let parts = Parts::of(alloc, source, summary, labels)?;
    parts.document(alloc, summary.is_recording)
}

/// Returns what a repair of lines from a source would do, for programs: compact JSON (RFC 8259) with
/// keys in byte order, and a newline.
pub fn summary_json(
    alloc: Global,
    source: Source<'_>,
    summary: &Summary,
    labels: &Labels,
) -> Result<String, NoMem>
    ensures text { IfOk result (λ text.
        string_bytes text ≡ summary_text summary.now (source_view source.entry) labels.now) }
    ensures read { IfOk result (λ text. read (string_bytes text)
        ≡ Some (summary_data summary.now (source_view source.entry) labels.now)) }
{
    let value = summary_value(alloc, source, summary, labels)?;
    let mut text = value.to_string(alloc)?;
    text.push('\n')?;
    Ok(text)
}
