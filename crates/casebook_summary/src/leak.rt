//! What cancelled lines showed.
ghost use Rattle.std.specs.Prelude.{◌≡◌, IfOk, map};
ghost use Rattle.std.specs.List.{filter};
ghost use Rattle.retro_redo.specs.Moments.{compensation_view};
ghost use Rattle.casebook_cause.specs.Compensations.{leaks};
ghost use Rattle.casebook_summary.specs.Summaries.{leak_for};
ghost use Rattle.casebook_view.specs.Unknown.{is_understood};

use crate::NoMem;
use casebook_cause::leaks;
use casebook_view::{Case, Obstacles, UnknownLine};
use retro_redo::Compensation;
use std::alloc::Global;

/// A cancelled line that showed something.
#[derive(Clone, Copy, Debug, PartialEq, Eq)]
pub struct Leak {
    /// The line's number.
    pub number: u32,
    /// The session that ran the line.
    pub session: u32,
    /// How many bytes it showed.
    pub bytes: usize,
}

/// Returns the leak of a cancelled line that is compensated.
fn leak_of(case: &Case<'_>, compensation: &Compensation<'_>) -> Leak
    ensures { result ≡ leak_for case.now.recording (compensation_view compensation.entry.now) }
{
    Leak {
        number: compensation.number,
        session: case.session_of(compensation.number),
        bytes: compensation.before.len(),
    }
}

/// Returns the cancelled lines that showed something, in order, without those that aren't
/// understood. What such a line printed is Retro's own, and nobody saw it.
pub fn leaks_of(alloc: Global, case: &Case<'_>, unknown: &[UnknownLine]) -> Result<Vec<Leak>, NoMem>
    ensures { IfOk result (λ found. found.items ≡ map (leak_for case.now.recording)
        (filter (is_understood unknown.now) (leaks case.now.recording case.now.repair))) }
{
    let compensations = leaks(alloc, case.recording(), case.repair())?;
    let obstacles = Obstacles::of(alloc, unknown)?;
    let mut found = Vec::new(alloc);
    for compensation in &compensations {
        if obstacles.has_none(compensation.number) {
            found.push(leak_of(case, compensation))?;
        }
    }
    Ok(found)
}
