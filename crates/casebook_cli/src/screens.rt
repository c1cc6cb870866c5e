//! What is shown of repairs.
ghost use Rattle.std.specs.Prelude.{◌≡◌, IfOk, IfErr, IsTrue, not, string_bytes, true};
ghost use Rattle.retro_keep.specs.Recording.{IsRecordingOf, script_in};
ghost use Rattle.casebook_cli.specs.Harmless.{IsHarmless, is_plain_shown};
ghost use Rattle.casebook_view.specs.Lines.{LinesMatch};
ghost use Rattle.casebook_cli.specs.Screens.{AreDiffLines, AreSummaryLines, AreWhyLines};
ghost use Rattle.casebook_cli.specs.Screens.{IsJson, IsLineText, IsScreenText, IsShownOf, IsTextOf};
ghost use Rattle.casebook_repairs.specs.Repairs.{asked_source};
ghost use Rattle.casebook_cli.specs.Stops.{IsNoLine, StopsShown};
ghost use Rattle.casebook_cli.specs.inner.Views.{screen_view};

use crate::NoMem;
use crate::colours::shown_lines;
use crate::rows_text::widest_name;
use crate::summaries::summary_of;
use casebook_json::summary_json;
use casebook_repairs::{AskedRepair, Stop};
use casebook_request::{Extras, ShownPart};
use casebook_screen::{Names, detail_lines, diff_lines, summary_lines, why_lines};
use casebook_summary::Summary;
use casebook_text::SafeLine;
use casebook_view::Case;
use std::alloc::Global;

/// What is shown of a repair, and how.
#[derive(Clone, Copy, Drop)]
struct Screen<'s, 'c> {
    /// The recording and its repair.
    case: &'s Case<'c>,
    /// What it would do.
    summary: &'s Summary,
    /// What sessions and lines are called.
    names: Names<'s>,
    /// Whether the terminal has colours.
    colours: bool,
}

impl Screen<'_, '_> {
    /// Returns what the repair would do.
    fn summary_lines(self, alloc: Global) -> Result<Vec<SafeLine>, NoMem>
        ensures { IfOk result (λ lines. AreSummaryLines (screen_view self.entry) lines.items) }
    {
        summary_lines(alloc, self.case, self.summary, self.names)
    }

    /// Returns what the repair would do, for programs.
    fn json(self, alloc: Global) -> Result<String, NoMem>
        ensures { IfOk result (λ text. IsJson (screen_view self.entry) (string_bytes text)) }
    {
        summary_json(alloc, self.case.source(), self.summary, self.names.labels)
    }

    /// Returns why lines are run again, if that is asked for.
    fn why_lines(self, alloc: Global, is_asked: bool) -> Result<Vec<SafeLine>, NoMem>
        ensures { IfOk result (λ lines.
            AreWhyLines is_asked (screen_view self.entry) lines.items) }
    {
        if !is_asked {
            return Ok(Vec::new(alloc));
        }
        why_lines(alloc, self.case, self.summary, self.names)
    }

    /// Returns how files and outputs differ, if that is asked for.
    fn diff_lines(self, alloc: Global, is_asked: bool) -> Result<Vec<SafeLine>, NoMem>
        ensures { IfOk result (λ lines.
            AreDiffLines is_asked (screen_view self.entry) lines.items) }
    {
        if !is_asked {
            return Ok(Vec::new(alloc));
        }
        diff_lines(alloc, self.case, self.summary.restorations.as_slice())
    }

    /// Returns the summary with what else is asked for.
    fn text(self, alloc: Global, extras: Extras) -> Result<String, NoMem>
        ensures value { IfOk result (λ text.
            IsScreenText extras (screen_view self.entry) (string_bytes text)) }
        ensures harmless { IfOk result (λ text.
            IsTrue (not self.entry.colours) → IsHarmless (string_bytes text)) }
    {
        let mut lines = self.summary_lines(alloc)?;
        lines.append(&mut self.why_lines(alloc, extras.why)?)?;
        lines.append(&mut self.diff_lines(alloc, extras.diff)?)?;
        shown_lines(alloc, lines.as_slice(), self.colours)
    }

    /// Returns one line in full.
    fn line<'a>(self, alloc: Global, number: u32) -> Result<String, Stop<'a>>
        ensures ok { IfOk result (λ text.
            IsLineText number (screen_view self.entry) (string_bytes text)) }
        ensures harmless { IfOk result (λ text.
            IsTrue (not self.entry.colours) → IsHarmless (string_bytes text)) }
        ensures err { IfErr result (IsNoLine number self.entry.case.now.recording) }
    {
        if self.case.recording().run_of(number).is_none() {
            return Err(Stop::NoLine(number));
        }
        let lines = detail_lines(alloc, self.case, self.summary, self.names, number)?;
        Ok(shown_lines(alloc, lines.as_slice(), self.colours)?)
    }

    /// Returns what is to be shown.
    fn shown<'a>(self, alloc: Global, shown: ShownPart) -> Result<String, Stop<'a>>
        ensures ok { IfOk result (λ text.
            IsTextOf shown (screen_view self.entry) (string_bytes text)) }
        ensures harmless { IfOk result (λ text. IsTrue (is_plain_shown self.entry.colours shown)
            → IsHarmless (string_bytes text)) }
        ensures err { IfErr result (StopsShown shown self.entry.case.now.recording) }
    {
        match shown {
            ShownPart::Summary(extras) => Ok(self.text(alloc, extras)?),
            ShownPart::Line(number) => self.line(alloc, number),
            ShownPart::Json => Ok(self.json(alloc)?),
        }
    }
}

/// Returns what is to be shown of a recording and its repair, which are those of what is asked for.
fn text_of_case<'a>(
    alloc: Global,
    asked: &AskedRepair,
    case: &Case<'_>,
    shown: ShownPart,
    colours: bool,
) -> Result<String, Stop<'a>>
    requires lines { LinesMatch case.now.recording case.now.repair }
    requires checked { asked.now.is_recording ≡ true
        → IsRecordingOf (script_in case.now.recording) case.now.recording }
    ensures ok { IfOk result (λ text. IsShownOf case.now.source case.now.edits
        case.now.recording case.now.repair asked.now.labels shown colours
        (string_bytes text)) }
    ensures harmless { IfOk result (λ text. IsTrue (is_plain_shown colours shown)
        → IsHarmless (string_bytes text)) }
    ensures err { IfErr result (StopsShown shown case.now.recording) }
{
    let summary = summary_of(alloc, case, asked.is_recording)?;
    let labels = &asked.labels;
    let width = widest_name(alloc, labels, case.recording().lines())?;
    let screen = Screen {
        case,
        summary: &summary,
        names: Names { labels, width },
        colours,
    };
    screen.shown(alloc, shown)
}

/// Returns what is to be shown of a repair, with colours if they are wanted.
pub(crate) fn shown_text<'a>(
    alloc: Global,
    asked: &AskedRepair,
    shown: ShownPart,
    colours: bool,
) -> Result<String, Stop<'a>>
    requires lines { LinesMatch asked.now.recording asked.now.repair }
    requires checked { asked.now.is_recording ≡ true
        → IsRecordingOf (script_in asked.now.recording) asked.now.recording }
    ensures ok { IfOk result (λ text. IsShownOf (asked_source asked.now) asked.now.edits.items
        asked.now.recording asked.now.repair asked.now.labels shown colours
        (string_bytes text)) }
    ensures harmless { IfOk result (λ text. IsTrue (is_plain_shown colours shown)
        → IsHarmless (string_bytes text)) }
    ensures err { IfErr result (StopsShown shown asked.now.recording) }
{
    let case = asked.case(alloc)?;
    text_of_case(alloc, asked, &case, shown, colours)
}
