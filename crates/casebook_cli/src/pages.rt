//! Pages of repairs.
ghost use Rattle.std.specs.Prelude.{◌≡◌, IfOk, string_bytes, true};
ghost use Rattle.retro_keep.specs.Recording.{IsRecordingOf, script_in};
ghost use Rattle.casebook_cli.specs.Pages.{IsPageOf};
ghost use Rattle.casebook_repairs.specs.Repairs.{asked_source};
ghost use Rattle.casebook_view.specs.Lines.{LinesMatch};

use crate::NoMem;
use crate::summaries::summary_of;
use casebook_page::{Contents, page};
use casebook_repairs::AskedRepair;
use casebook_view::Case;
use std::alloc::Global;

/// Returns the page of a recording and its repair, which are those of what is asked for.
fn page_of_case<'x>(
    alloc: Global,
    asked: &'x AskedRepair,
    case: &'x Case<'_>,
    title: &'x str,
    all: bool,
) -> Result<String, NoMem>
    requires lines { LinesMatch case.now.recording case.now.repair }
    requires checked { asked.now.is_recording ≡ true
        → IsRecordingOf (script_in case.now.recording) case.now.recording }
    ensures { IfOk result (λ text.
        IsPageOf case.entry.now.source case.entry.now.edits case.entry.now.recording
        case.entry.now.repair asked.entry.now.labels title.entry.now all (string_bytes text)) }
{
    let summary = summary_of(alloc, case, asked.is_recording)?;
    let contents = Contents {
        case,
        summary: &summary,
        labels: &asked.labels,
        title,
        shows_all: all,
    };
    page(alloc, contents)
}

/// Returns the page of a repair. `all` is whether untouched lines have rows also if there are many
/// lines.
pub(crate) fn page_text(
    alloc: Global,
    asked: &AskedRepair,
    title: &str,
    all: bool,
) -> Result<String, NoMem>
    requires lines { LinesMatch asked.now.recording asked.now.repair }
    requires checked { asked.now.is_recording ≡ true
        → IsRecordingOf (script_in asked.now.recording) asked.now.recording }
    ensures { IfOk result (λ text.
        IsPageOf (asked_source asked.now) asked.now.edits.items asked.now.recording
        asked.now.repair asked.now.labels title.now all (string_bytes text)) }
{
    let case = asked.case(alloc)?;
    page_of_case(alloc, asked, &case, title, all)
}
