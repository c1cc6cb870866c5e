//! What repairs would do.
ghost use Rattle.std.specs.Prelude.{◌≡◌, IfOk, true};
ghost use Rattle.retro_keep.specs.Recording.{IsRecordingOf, script_in};
ghost use Rattle.casebook_view.specs.Lines.{LinesMatch};
ghost use Rattle.casebook_cli.specs.Screens.{IsSummaryOf};

use crate::NoMem;
use casebook_summary::Summary;
use casebook_view::Case;
use std::alloc::Global;

/// Returns what a repair would do. A log may be said to be as its lines run only if it is.
pub(crate) fn summary_of(
    alloc: Global,
    case: &Case<'_>,
    is_recording: bool,
) -> Result<Summary, NoMem>
    requires lines { LinesMatch case.now.recording case.now.repair }
    requires checked { is_recording ≡ true
        → IsRecordingOf (script_in case.now.recording) case.now.recording }
    ensures { IfOk result
        (IsSummaryOf case.now.source case.now.edits case.now.recording case.now.repair) }
{
    Summary::of(alloc, case, is_recording)
}
