//! Why the lines of a repair aren't understood.
ghost use Rattle.std.specs.Prelude.{◌≡◌, IfOk};
ghost use Rattle.casebook_view.specs.Unknown.{obstacle_in, recorded_unknown};
ghost use Rattle.casebook_view.specs.inner.Obstacles.{AreOfLines};

use crate::NoMem;
use crate::case::Case;
use crate::obstacles::Obstacles;
use crate::source::Source;
use crate::to_run::lines_to_run;
use crate::unknown::{is_replaced, replaced_obstacles};
use casebook_profile::{Obstacle, UnknownLine, unknown_lines};
use std::alloc::Global;

/// Why the lines of a repair aren't understood.
#[derive(Drop)]
pub(crate) struct CaseObstacles {
    /// Those of the lines as they were recorded.
    recorded: Obstacles,
    /// Those of the texts that lines run in place of the recorded ones.
    replaced: Obstacles,
}

/// Returns the lines of a repair that aren't understood as they were recorded.
fn recorded_unknown(alloc: Global, case: &Case<'_>) -> Result<Vec<UnknownLine>, NoMem>
    ensures { IfOk result (λ found. found.items
        ≡ recorded_unknown case.now.source case.now.recording case.now.repair) }
{
    match case.source() {
        Source::Played => unknown_lines(alloc, case.recording()),
        Source::Seen(seen) => lines_to_run(alloc, case, seen.observed),
    }
}

impl CaseObstacles {
    /// Returns why the lines of a repair aren't understood.
    pub(crate) fn of(alloc: Global, case: &Case<'_>) -> Result<CaseObstacles, NoMem>
        ensures { IfOk result (AreOfLines case.now.source case.now.recording case.now.repair) }
    {
        let recorded = recorded_unknown(alloc, case)?;
        Ok(CaseObstacles {
            recorded: Obstacles::of(alloc, recorded.as_slice())?,
            replaced: replaced_obstacles(alloc, case)?,
        })
    }

    /// Returns why a line isn't understood, or `None` if it is.
    pub(crate) fn at(&self, case: &Case<'_>, number: u32) -> Option<Obstacle>
        ensures { AreOfLines case.now.source case.now.recording case.now.repair self.now
            → result ≡ obstacle_in case.now.source case.now.recording case.now.repair number }
    {
        match self.recorded.at(number) {
            Some(obstacle) => Some(obstacle),
            None if is_replaced(case, number) => self.replaced.at(number),
            None => None,
        }
    }
}
