//! The lines of a recording, in order of their numbers.
ghost use Rattle.std.specs.Prelude.{◌≡◌, IfOk, IsTrue, List, map};
ghost use Rattle.std.specs.Option.{option_copied};
ghost use Rattle.retro_keep.specs.Script.{rises_from};
ghost use Rattle.retro_keep.specs.declared.edit.Edit.{Edit as EditValue};
ghost use Rattle.casebook_profile.specs.declared.unknown_line.UnknownLine.{UnknownLine as UnknownValue};
ghost use Rattle.casebook_view.specs.CaseLines.{line_at, line_number, reason_at};
ghost use Rattle.casebook_view.specs.Lines.{AreLines, IsLine, IsReasonBy, LinesMatch, observed_in};
ghost use Rattle.casebook_view.specs.Obstacles.{AreObstacles};
ghost use Rattle.casebook_view.specs.Reasons.{cause_in, chain_of};
ghost use Rattle.casebook_view.specs.Sources.{SourceValue, source_view};
ghost use Rattle.casebook_view.specs.inner.NewTexts.{AreNewTexts};
ghost use Rattle.casebook_view.specs.inner.Numbers.{AreNumbers};

use crate::NoMem;
use crate::case::Case;
use crate::case_line::CaseLine;
use crate::fate::fate_of;
use crate::new_texts::NewTexts;
use crate::numbers::Numbers;
use crate::obstacles::Obstacles;
use crate::reason::{Reason, reason_of};
use crate::source::Source;
use casebook_profile::UnknownLine;
use retro_redo::{SettledLine, Verdict};
use std::alloc::Global;
use std::marker::Model;

/// The lines of a recording in order of their numbers, each with what a repair does with it.
#[derive(Drop)]
pub struct CaseLines {
    lines: Vec<CaseLine>,
}

impl Model for CaseLines {
    ghost use Rattle.std.specs.Prelude.{IsTrue, List, map};
    ghost use Rattle.retro_keep.specs.Script.{rises_from};
    ghost use Rattle.casebook_view.specs.CaseLines.{line_number};
    ghost use Rattle.casebook_view.specs.declared.case_line.CaseLine.{CaseLine as Line};

    ghost Value = { List Line };

    ghost view = { λ a. a.lines.items };

    ghost invariant = { λ a. IsTrue (rises_from 0 (map line_number a.lines.items)) };
}

/// Returns the line with a number, of lines in order of numbers.
pub(crate) fn line_in(lines: &[CaseLine], number: u32) -> Option<&CaseLine>
    ensures { IsTrue (rises_from 0 (map line_number lines.now))
        → option_copied result ≡ line_at number lines.now }
{
    match lines.binary_search_by_key(&number, |line| line.number) {
        Ok(index) => Some(&lines[index]),
        Err(_) => None,
    }
}

/// Returns the lines that stand as they were observed, by their source.
fn observed_in(source: Source<'_>) -> &[u32]
    ensures { result.now ≡ observed_in (source_view source.entry) }
{
    match source {
        Source::Played => &[],
        Source::Seen(seen) => seen.observed,
    }
}

/// What tells what a repair does with lines.
#[derive(Drop)]
struct Teller<'a, 'c> {
    case: &'c Case<'a>,
    texts: NewTexts,
    obstacles: Obstacles,
    observed: Numbers,
}

impl Teller<'_, '_> {
    /// Returns why a line is run again, if the verdict is that it is. `earlier` are the lines before
    /// it.
    fn reason(
        &self,
        alloc: Global,
        earlier: &[CaseLine],
        line: &SettledLine,
    ) -> Result<Option<Reason>, NoMem>
        ensures { (edits : List EditValue) → AreNewTexts edits self.now.texts
            → IsTrue (rises_from 0 (map line_number earlier.now))
            → IfOk result (IsReasonBy edits self.now.case.now.recording self.now.case.now.repair
            earlier.now line.now.number line.now.verdict) }
    {
        match line.verdict {
            Verdict::Redone => {
                let reason = reason_of(alloc, self.case, &self.texts, earlier, line.number)?;
                Ok(Some(reason))
            }
            Verdict::Cancelled | Verdict::Kept => Ok(None),
        }
    }

    /// Returns what the repair does with the line with a number, which is that of a line on which it
    /// has a verdict. `earlier` are the lines before it.
    fn line(
        &self,
        alloc: Global,
        earlier: &[CaseLine],
        number: u32,
        settled: &SettledLine,
    ) -> Result<CaseLine, NoMem>
        ensures number { IfOk result (λ line. line.number ≡ number) }
        ensures line { (source : SourceValue) (edits : List EditValue)
            (unknown : List UnknownValue) → AreNewTexts edits self.now.texts
            → AreObstacles unknown self.now.obstacles
            → AreNumbers (observed_in source) self.now.observed
            → IsTrue (rises_from 0 (map line_number earlier.now)) → number ≡ settled.now.number
            → IfOk result (IsLine source edits self.now.case.now.recording
            self.now.case.now.repair unknown earlier.now settled.now) }
    {
        Ok(CaseLine {
            number,
            session: self.case.session_of(number),
            fate: fate_of(self.case, settled),
            reason: self.reason(alloc, earlier, settled)?,
            obstacle: self.obstacles.at(number),
            is_observed: self.observed.has(number),
        })
    }
}

impl CaseLines {
    /// Returns what the repair of a case does with each line. `unknown` are the lines that aren't
    /// understood or have to be run for real.
    pub fn of(alloc: Global, case: &Case<'_>, unknown: &[UnknownLine]) -> Result<CaseLines, NoMem>
        ensures { LinesMatch case.now.recording case.now.repair → IfOk result
            (AreLines case.now.source case.now.edits case.now.recording case.now.repair unknown.now) }
    {
        let teller = Teller {
            case,
            texts: NewTexts::of(alloc, case.edits())?,
            obstacles: Obstacles::of(alloc, unknown)?,
            observed: Numbers::of(alloc, observed_in(case.source()))?,
        };
        let mut lines = Vec::new(alloc);
        for (line, settled) in case.recording().lines().iter().zip(&case.repair().lines) {
            let next = teller.line(alloc, lines.as_slice(), line.0, settled)?;
            lines.push(next)?;
        }
        Ok(CaseLines { lines })
    }

    /// Returns the lines, in order of their numbers.
    pub fn as_slice(&self) -> &[CaseLine]
        ensures { result.now ≡ self.now }
    {
        self.lines.as_slice()
    }

    /// Returns the line with a number, or `None` if there is none.
    pub fn at(&self, number: u32) -> Option<&CaseLine>
        ensures { option_copied result ≡ line_at number self.now }
    {
        line_in(self.lines.as_slice(), number)
    }

    /// Returns the cause of a line, or `None` if it has none.
    fn cause_at(&self, number: u32) -> Option<u32>
        ensures { result ≡ cause_in (reason_at number self.now) }
    {
        match self.at(number) {
            Some(line) => match line.reason {
                Some(reason) => reason.cause,
                None => None,
            },
            None => None,
        }
    }

    /// Returns the chain of causes of a line: its cause, the cause of that, and so on.
    pub fn chain(&self, alloc: Global, number: u32) -> Result<Vec<u32>, NoMem>
        ensures { IfOk result (λ found. found.items ≡ chain_of self.now number) }
    {
        let mut chain = Vec::new(alloc);
        let mut at = number;
        let mut left = self.lines.len();
        while left > 0 {
            match self.cause_at(at) {
                Some(cause) => {
                    chain.push(cause)?;
                    at = cause;
                    left -= 1;
                }
                None => return Ok(chain),
            }
        }
        Ok(chain)
    }
}
