//! What a page is about.
ghost use Rattle.std.specs.Prelude.{◌≡◌, is_none};
ghost use Rattle.std.specs.Option.{option_copied};
ghost use Rattle.retro_keep.specs.Recording.{noted_at};
ghost use Rattle.casebook_view.specs.CaseLines.{fate_at, line_at, obstacle_in};
ghost use Rattle.casebook_page.specs.Told.{has_other_output, output_of, remark_of, shows_untouched};
ghost use Rattle.casebook_page.specs.Views.{contents_view};

use casebook_about::Labels;
use casebook_summary::Summary;
use casebook_view::{Case, CaseLine, Fate, Obstacle};
use retro_keep::Noted;

/// What a page is about.
#[derive(Drop, Clone, Copy)]
pub struct Contents<'a, 'r> {
    /// The recording and its repair.
    pub case: &'a Case<'r>,
    /// What the repair would do.
    pub summary: &'a Summary,
    /// What sessions and lines are called.
    pub labels: &'a Labels,
    /// The title.
    pub title: &'a str,
    /// Whether untouched lines have rows also if there are many lines.
    pub shows_all: bool,
}

/// Returns what a line printed, or nothing if there is no line.
fn output_of<'r>(noted: Option<&'r Noted>) -> &'r [u8]
    ensures { result.now ≡ output_of (option_copied noted.entry) }
{
    match noted {
        Some(noted) => noted.output.as_slice(),
        None => &[],
    }
}

/// Returns what the row of a line says of it: why it isn't understood or has to be run for real, or
/// else that it stands as it was observed.
pub(crate) fn remark_of(line: &CaseLine) -> Option<Obstacle>
    ensures { result ≡ remark_of line.now }
{
    match line.obstacle {
        None if line.is_observed => Some(Obstacle::Observed),
        obstacle => obstacle,
    }
}

/// Over so many lines, untouched ones are counted and have no rows.
const LINE_LIMIT: usize = 5_000;

impl<'r> Contents<'_, 'r> {
    /// Returns whether untouched lines have rows.
    pub(crate) fn shows_untouched(self) -> bool
        ensures { result ≡ shows_untouched (contents_view self.entry) }
    {
        self.shows_all || self.summary.lines.as_slice().len() <= LINE_LIMIT
    }

    /// Returns what becomes of the line with a number, or `None` if there is no such line.
    pub(crate) fn fate_of(self, number: u32) -> Option<Fate>
        ensures { result ≡ fate_at number self.entry.summary.now.lines }
    {
        self.summary.lines.at(number).map(|line| line.fate)
    }

    /// Returns why the line with a number isn't understood or has to be run for real, if it isn't or
    /// has to.
    pub(crate) fn obstacle_of(self, number: u32) -> Option<Obstacle>
        ensures { result ≡ obstacle_in (line_at number self.entry.summary.now.lines) }
    {
        match self.summary.lines.at(number) {
            Some(line) => line.obstacle,
            None => None,
        }
    }

    /// Returns what the line with a number printed.
    pub(crate) fn recorded_output(self, number: u32) -> &'r [u8]
        ensures { result.now ≡ output_of (noted_at number self.entry.case.now.recording.lines) }
    {
        output_of(self.case.recorded(number))
    }

    /// Returns what the line with a number prints in the repaired run.
    pub(crate) fn repaired_output(self, number: u32) -> &'r [u8]
        ensures { result.now
            ≡ output_of (noted_at number self.entry.case.now.repair.recording.lines) }
    {
        output_of(self.case.repaired(number))
    }

    /// Returns whether a line is understood and prints something else in the repaired run.
    pub(crate) fn has_other_output(self, line: &CaseLine) -> bool
        ensures { result ≡ has_other_output (contents_view self.entry) line.now }
    {
        line.fate == Fate::Changed
            && line.obstacle.is_none()
            && self.recorded_output(line.number) != self.repaired_output(line.number)
    }
}
