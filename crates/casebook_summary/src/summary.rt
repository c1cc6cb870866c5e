//! Summaries of repairs.
ghost use Rattle.std.specs.Prelude.{◌≡◌, IfOk};
ghost use Rattle.casebook_view.specs.Lines.{LinesMatch};
ghost use Rattle.casebook_summary.specs.Counts.{count_changed, count_of, numbers_with};
ghost use Rattle.casebook_summary.specs.Counts.{unknown_cancelled};
ghost use Rattle.casebook_summary.specs.Summary.{IsSummary};

use crate::NoMem;
use crate::doubt::undecided_paths;
use crate::effect::{Effect, effects};
use crate::group::Group;
use crate::grouping::grouped;
use crate::leak::{Leak, leaks_of};
use crate::notice::{Notice, looks, notices};
use crate::restoration::{Restoration, restorations};
use casebook_changes::PathChange;
use casebook_view::{Case, CaseLines, Fate, Obstacle, UnknownLine, unknown_in};
use retro_tree::Path;
use std::alloc::Global;

/// What a repair would do.
#[derive(Drop)]
pub struct Summary {
    /// Whether the log is as its lines run. Of lines that a recorder saw it says nothing.
    pub is_recording: bool,
    /// The lines that aren't understood, in order: those whose recorded text isn't if they were
    /// played, those that a recorder observed and that have to be run, and those that run another
    /// text in the repaired recording that isn't understood.
    pub unknown: Vec<UnknownLine>,
    /// What becomes of each line, and why those are run again that are, in order.
    pub lines: CaseLines,
    /// What is to be restored at the paths that differ at the end, in order.
    pub restorations: Vec<Restoration>,
    /// The paths that don't differ at the end, and to which a line wrote that has to be run for
    /// real, as it was recorded or in the repaired recording, in order.
    pub undecided: Vec<Path>,
    /// Whom to tell about what: a notice for each line that is understood, isn't cancelled and
    /// prints something else, in order.
    pub notices: Vec<Notice>,
    /// The same by session and subject.
    pub told: Vec<Group>,
    /// Who looked at what by lines that have to be run for real: a notice for each, in order.
    pub looks: Vec<Notice>,
    /// The same by session and subject.
    pub looked: Vec<Group>,
    /// The cancelled lines that are understood and showed something, in order.
    pub leaks: Vec<Leak>,
    /// What each cancelled or replaced line led to, in order.
    pub effects: Vec<Effect>,
}

impl Summary {
    /// Returns the summary of a repair. `is_recording` is whether the log is as its lines run.
    pub fn of(alloc: Global, case: &Case<'_>, is_recording: bool) -> Result<Summary, NoMem>
        ensures recording { IfOk result (λ summary. summary.is_recording ≡ is_recording) }
        ensures summary { LinesMatch case.now.recording case.now.repair → IfOk result
            (IsSummary case.now.source case.now.edits case.now.recording case.now.repair) }
    {
        let unknown = unknown_in(alloc, case)?;
        let lines = CaseLines::of(alloc, case, unknown.as_slice())?;
        let restorations = restorations(alloc, case, unknown.as_slice())?;
        let undecided = undecided_paths(alloc, case, unknown.as_slice(), restorations.as_slice())?;
        let notices = notices(alloc, case, &lines, unknown.as_slice())?;
        let told = grouped(alloc, notices.as_slice())?;
        let looks = looks(alloc, case, &lines, unknown.as_slice())?;
        let looked = grouped(alloc, looks.as_slice())?;
        let leaks = leaks_of(alloc, case, unknown.as_slice())?;
        let effects = effects(alloc, case, lines.as_slice())?;
        Ok(Summary {
            is_recording,
            unknown,
            lines,
            restorations,
            undecided,
            notices,
            told,
            looks,
            looked,
            leaks,
            effects,
        })
    }

    /// Returns how many lines have a fate.
    pub fn count(&self, fate: Fate) -> usize
        ensures { result ≡ count_of self.now.lines fate }
    {
        let lines = self.lines.as_slice();
        lines.iter().filter(|line| line.fate == fate).count()
    }
    /// Returns how many paths are restored in a way.
    pub fn count_changed(&self, change: PathChange) -> usize
        ensures { result ≡ count_changed self.now.restorations.items change }
    {
        self.restorations
            .iter()
            .filter(|path| path.change == change)
            .count()
    }

    /// Returns how many cancelled lines aren't understood.
    pub fn unknown_cancelled(&self) -> usize
        ensures { result ≡ unknown_cancelled self.now.lines }
    {
        let lines = self.lines.as_slice();
        lines
            .iter()
            .filter(|line| line.fate == Fate::Cancelled && line.obstacle.is_some())
            .count()
    }

    /// Returns the numbers of the lines with an obstacle, in order.
    pub fn numbers_with(&self, alloc: Global, obstacle: Obstacle) -> Result<Vec<u32>, NoMem>
        ensures { IfOk result (λ numbers.
            numbers.items ≡ numbers_with obstacle self.now.unknown.items) }
    {
        self.unknown
            .iter()
            .filter(|line| line.obstacle == obstacle)
            .map(|line| line.number)
            .collect(alloc)
    }
}
