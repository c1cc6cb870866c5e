//! The parts of the document.
ghost use Rattle.std.specs.Prelude.{◌≡◌, ◌++◌, IfOk, map};
ghost use Rattle.serde_json.specs.View.{view};
ghost use Rattle.casebook_view.specs.Sources.{source_view};
ghost use Rattle.casebook_json.specs.Restore.{doubtful_paths};
ghost use Rattle.casebook_json.specs.Values.{path_data};
ghost use Rattle.casebook_json.specs.inner.Parts.{AreParts, document};

use crate::NoMem;
use crate::count_value::counts_value;
use crate::effect_value::effect_values;
use crate::group_value::group_values;
use crate::leak_value::leak_values;
use crate::line_value::line_values;
use crate::restoration_value::{doubtful_restorations, restoration_values};
use crate::source_value::{
    incomplete_values, observed_values, outside_values, overlapping_values, source_name,
    unseen_values,
};
use crate::unknown_value::unknown_values;
use crate::value::path_values;
use casebook_about::Labels;
use casebook_summary::Summary;
use casebook_view::Source;
use serde_json::{Map, Value, put};
use std::alloc::Global;

/// The version of the document.
const VERSION: u32 = 1;

/// The parts of the document.
#[derive(Drop)]
pub(crate) struct Parts {
    causes: Vec<Value>,
    counts: Value,
    doubtful: Vec<Value>,
    incomplete: Vec<Value>,
    leaked: Vec<Value>,
    lines: Vec<Value>,
    looked: Vec<Value>,
    observed: Vec<Value>,
    outside: Vec<Value>,
    overlapping: Vec<Value>,
    restore: Vec<Value>,
    source: &'static str,
    tell: Vec<Value>,
    unknown: Vec<Value>,
    unseen: Vec<Value>,
}

/// Returns the JSON values of the doubtful paths, and then of those of which it isn't known what they
/// would be.
fn doubtful_values(alloc: Global, summary: &Summary) -> Result<Vec<Value>, NoMem>
    ensures { IfOk result (λ vs. map view vs.items ≡ map path_data
        (doubtful_paths summary.now.restorations.items ++ summary.now.undecided.items)) }
{
    let mut values = doubtful_restorations(alloc, summary.restorations.as_slice())?;
    values.append(&mut path_values(alloc, summary.undecided.as_slice())?)?;
    Ok(values)
}

impl Parts {
    /// Returns the parts of the document of a repair.
    pub(crate) fn of(
        alloc: Global,
        source: Source<'_>,
        summary: &Summary,
        labels: &Labels,
    ) -> Result<Parts, NoMem>
        ensures { IfOk result (AreParts summary.now (source_view source.entry) labels.now) }
    {
        Ok(Parts {
            causes: effect_values(alloc, summary.effects.as_slice())?,
            counts: counts_value(alloc, summary)?,
            doubtful: doubtful_values(alloc, summary)?,
            incomplete: incomplete_values(alloc, source)?,
            leaked: leak_values(alloc, labels, summary.leaks.as_slice())?,
            lines: line_values(alloc, summary.lines.as_slice())?,
            looked: group_values(alloc, labels, summary.looked.as_slice())?,
            observed: observed_values(alloc, source)?,
            outside: outside_values(alloc, source)?,
            overlapping: overlapping_values(alloc, source)?,
            restore: restoration_values(alloc, summary.restorations.as_slice())?,
            source: source_name(source),
            tell: group_values(alloc, labels, summary.told.as_slice())?,
            unknown: unknown_values(alloc, summary.unknown.as_slice())?,
            unseen: unseen_values(alloc, source)?,
        })
    }

    /// Returns the document of these parts.
    pub(crate) fn document(self, alloc: Global, is_recording: bool) -> Result<Value, NoMem>
        ensures { IfOk result (λ v. view v ≡ document is_recording self) }
    {
        let mut map = Map::new(alloc);
        put(&mut map, alloc, "causes", Value::Array(self.causes))?;
        put(&mut map, alloc, "counts", self.counts)?;
        put(&mut map, alloc, "doubtful", Value::Array(self.doubtful))?;
        put(&mut map, alloc, "incomplete", Value::Array(self.incomplete))?;
        put(&mut map, alloc, "leaked", Value::Array(self.leaked))?;
        put(&mut map, alloc, "lines", Value::Array(self.lines))?;
        put(&mut map, alloc, "looked", Value::Array(self.looked))?;
        put(&mut map, alloc, "observed", Value::Array(self.observed))?;
        put(&mut map, alloc, "outside", Value::Array(self.outside))?;
        put(
            &mut map,
            alloc,
            "overlapping",
            Value::Array(self.overlapping),
        )?;
        put(&mut map, alloc, "recording", Value::Bool(is_recording))?;
        put(&mut map, alloc, "restore", Value::Array(self.restore))?;
        put(&mut map, alloc, "show", Value::from(VERSION))?;
        put(
            &mut map,
            alloc,
            "source",
            Value::try_from_str(alloc, self.source)?,
        )?;
        put(&mut map, alloc, "tell", Value::Array(self.tell))?;
        put(&mut map, alloc, "unknown", Value::Array(self.unknown))?;
        put(&mut map, alloc, "unseen", Value::Array(self.unseen))?;
        Ok(Value::Object(map))
    }
}
