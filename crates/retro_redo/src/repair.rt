//! Repairs.
ghost use Rattle.std.specs.Prelude.{◌≡◌, IfOk, map};
ghost use Rattle.retro_redo.specs.Moments.{compensation_view};
ghost use Rattle.retro_redo.specs.Repair.{compensations_in, met_numbers, numbers_with};
ghost use Rattle.retro_redo.specs.Repair.{output_at, repaired_outputs, repaired_state};

use crate::compensation::Compensation;
use crate::tally::Tally;
use crate::verdict::{SettledLine, Verdict};
use retro_keep::Recording;
use retro_tree::{Bytes, NoMem, State};
use std::alloc::Global;

/// A repaired machine: what running the edited lines gives, and what was done with each line. The
/// edited lines are those that aren't cancelled, each with its new text if its text is replaced.
#[derive(Drop)]
pub struct Repair {
    /// What was done with each line, in order.
    pub lines: Vec<SettledLine>,
    /// How many guesses were made, and how they ended.
    pub tally: Tally,
    /// The recording of the edited lines. It begins at the same number as the one repaired.
    pub recording: Recording,
}

impl Repair {
    /// Returns the state after the edited lines, which the repaired recording holds.
    pub fn state(&self) -> &State
        ensures { result.now ≡ repaired_state self.now }
    {
        self.recording.last()
    }

    /// Returns a copy of what the edited lines print: each line's number and its output, in order.
    /// The repaired recording lends the same without a copy.
    pub fn outputs(&self, alloc: Global) -> Result<Vec<(u32, Bytes)>, NoMem>
        ensures { IfOk result (λ outputs. outputs.items ≡ repaired_outputs self.now) }
    {
        let lines = self.recording.lines();
        let mut outputs = Vec::new(alloc);
        for line in lines {
            outputs.push((line.0, line.1.output.copy()?))?;
        }
        Ok(outputs)
    }
    /// Returns the numbers of the lines with a verdict, in order.
    pub fn lines_with(&self, alloc: Global, verdict: Verdict) -> Result<Vec<u32>, NoMem>
        ensures { IfOk result (λ numbers. numbers.items
            ≡ numbers_with verdict self.now.lines.items) }
    {
        let mut numbers = Vec::new(alloc);
        for line in &self.lines {
            if line.verdict == verdict {
                numbers.push(line.number)?;
            }
        }
        Ok(numbers)
    }

    /// Returns the numbers of the met lines, in order.
    pub fn met_lines(&self, alloc: Global) -> Result<Vec<u32>, NoMem>
        ensures { IfOk result (λ numbers. numbers.items ≡ met_numbers self.now.lines.items) }
    {
        let mut numbers = Vec::new(alloc);
        for line in &self.lines {
            if line.is_met {
                numbers.push(line.number)?;
            }
        }
        Ok(numbers)
    }

    /// Returns the lines of `recorded`, the recording that was repaired, that print something else
    /// in the repaired one, in order, with both outputs.
    pub fn compensations<'a>(
        &'a self,
        alloc: Global,
        recorded: &'a Recording,
    ) -> Result<Vec<Compensation<'a>>, NoMem>
        ensures { IfOk result (λ found. map compensation_view found.items
            ≡ compensations_in recorded.now self.now) }
    {
        let lines = recorded.lines();
        let mut found = Vec::new(alloc);
        for line in lines {
            let (number, noted) = line;
            let before = noted.output.as_slice();
            let now = self.output(*number);
            if before != now {
                found.push(Compensation {
                    number: *number,
                    before,
                    now,
                })?;
            }
        }
        Ok(found)
    }

    /// Returns what a line prints in the repaired run: nothing if it isn't run.
    fn output(&self, number: u32) -> &[u8]
        ensures { result.now ≡ output_at number self.now.recording.lines }
    {
        match self.recording.run_of(number) {
            None => &[],
            Some(noted) => noted.output.as_slice(),
        }
    }
}
