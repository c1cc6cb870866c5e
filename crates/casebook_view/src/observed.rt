//! The lines of a recording of which Retro's shell says too little.
ghost use Rattle.std.specs.Prelude.{◌≡◌, IfOk};
ghost use Rattle.casebook_view.specs.Rows.{observed_lines, unknown_of};
ghost use Rattle.casebook_view.specs.Sources.{source_view};

use crate::NoMem;
use crate::source::Source;
use casebook_profile::{Obstacle, UnknownLine, unknown_lines};
use retro_keep::Recording;
use std::alloc::Global;

/// Returns the lines with these numbers as lines that stand as they were observed.
fn observed_lines(alloc: Global, numbers: &[u32]) -> Result<Vec<UnknownLine>, NoMem>
    ensures { IfOk result (λ found. found.items ≡ observed_lines numbers.now) }
{
    numbers
        .iter()
        .map(|number| UnknownLine {
            number: *number,
            obstacle: Obstacle::Observed,
        })
        .collect(alloc)
}

/// Returns the lines of a recording that aren't understood if they were played, or that stand as
/// they were observed if a recorder saw them.
pub(crate) fn unknown_of(
    alloc: Global,
    recording: &Recording,
    source: Source<'_>,
) -> Result<Vec<UnknownLine>, NoMem>
    ensures { IfOk result (λ found.
        found.items ≡ unknown_of (source_view source.entry) recording.now) }
{
    match source {
        Source::Played => unknown_lines(alloc, recording),
        Source::Seen(seen) => observed_lines(alloc, seen.observed),
    }
}
