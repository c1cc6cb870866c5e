//! Where a recording comes from, as JSON.
ghost use Rattle.std.specs.Prelude.{◌≡◌, IfOk, map};
ghost use Rattle.serde_json.specs.View.{view};
ghost use Rattle.retro_json.specs.Values.{number_data};
ghost use Rattle.casebook_view.specs.Sources.{source_view};
ghost use Rattle.serde_json.specs.Data.{string};
ghost use Rattle.casebook_json.specs.Source.{incomplete_in, observed_in, outside_in};
ghost use Rattle.casebook_json.specs.Source.{overlapping_in, source_name, unseen_in};

use crate::NoMem;
use crate::value::{number_values, text_values};
use casebook_view::Source;
use serde_json::Value;
use std::alloc::Global;

/// Returns the name of where a recording comes from.
pub(crate) fn source_name(source: Source<'_>) -> &'static str
    ensures { result.now ≡ source_name (source_view source.entry) }
{
    match source {
        Source::Played => "played",
        Source::Seen(_) => "machine",
    }
}

/// Returns the JSON values of the numbers of the observed lines, in order. Lines that were played
/// have none.
pub(crate) fn observed_values(alloc: Global, source: Source<'_>) -> Result<Vec<Value>, NoMem>
    ensures { IfOk result (λ vs.
        map view vs.items ≡ map number_data (observed_in (source_view source.entry))) }
{
    match source {
        Source::Played => Ok(Vec::new(alloc)),
        Source::Seen(seen) => number_values(alloc, seen.observed),
    }
}

/// Returns the JSON values of the numbers of the lines while which others were open, in order.
pub(crate) fn overlapping_values(alloc: Global, source: Source<'_>) -> Result<Vec<Value>, NoMem>
    ensures { IfOk result (λ vs.
        map view vs.items ≡ map number_data (overlapping_in (source_view source.entry))) }
{
    match source {
        Source::Played => Ok(Vec::new(alloc)),
        Source::Seen(seen) => number_values(alloc, seen.overlapping),
    }
}

/// Returns the JSON values of the numbers of the changes that no line made, in order.
pub(crate) fn outside_values(alloc: Global, source: Source<'_>) -> Result<Vec<Value>, NoMem>
    ensures { IfOk result (λ vs.
        map view vs.items ≡ map number_data (outside_in (source_view source.entry))) }
{
    match source {
        Source::Played => Ok(Vec::new(alloc)),
        Source::Seen(seen) => number_values(alloc, seen.outside),
    }
}

/// Returns the JSON values of the numbers of the sessions of which some lines have no record, in
/// order.
pub(crate) fn incomplete_values(alloc: Global, source: Source<'_>) -> Result<Vec<Value>, NoMem>
    ensures { IfOk result (λ vs.
        map view vs.items ≡ map number_data (incomplete_in (source_view source.entry))) }
{
    match source {
        Source::Played => Ok(Vec::new(alloc)),
        Source::Seen(seen) => number_values(alloc, seen.incomplete),
    }
}

/// Returns the JSON values of the folders in which it wasn't always seen what lines only read.
pub(crate) fn unseen_values(alloc: Global, source: Source<'_>) -> Result<Vec<Value>, NoMem>
    ensures { IfOk result (λ vs.
        map view vs.items ≡ map string (unseen_in (source_view source.entry))) }
{
    match source {
        Source::Played => Ok(Vec::new(alloc)),
        Source::Seen(seen) => text_values(alloc, seen.unseen),
    }
}
