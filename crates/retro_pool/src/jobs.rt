//! The jobs of a round.
ghost use Rattle.std.specs.Prelude.{◌≡◌, IfOk, MatchBool};
ghost use Rattle.retro_redo.specs.Picks.{PicksBy};
ghost use Rattle.retro_pool.specs.Jobs.{IsWanted};

use crate::job::Job;
use retro_keep::Edit;
use retro_redo::Ground;
use retro_shell::holds;
use retro_tree::NoMem;
use std::alloc::Global;

/// Returns a job for each of the numbers whose line is stale in the combined state before it, in
/// order: a line whose text is replaced, and a line that nothing edits and whose notes don't hold
/// there. A number that no line has gets no job.
pub fn make_jobs(
    alloc: Global,
    ground: &Ground<'_, '_, '_>,
    numbers: &[u32],
) -> Result<Vec<Job>, NoMem>
    ensures { IfOk result (λ jobs.
        PicksBy (λ n. n) (IsWanted ground.now) numbers.now jobs.items) }
{
    let mut jobs = Vec::with_capacity(alloc, numbers.len())?;
    for number in numbers {
        let wanted = match is_wanted(alloc, ground, *number) {
            Ok(wanted) => wanted,
            Err(error) => {
                give_all_back(jobs);
                return Err(error);
            }
        };
        if wanted {
            match jobs.push(Job::new(*number)) {
                Ok(()) => {}
                Err(_) => unreachable!(),
            }
        }
    }
    Ok(jobs)
}

/// Returns whether the line with the given number is stale in the combined state before it.
fn is_wanted(alloc: Global, ground: &Ground<'_, '_, '_>, number: u32) -> Result<bool, NoMem>
    ensures { IfOk result (λ b.
        MatchBool b (IsWanted ground.now number) (¬ (IsWanted ground.now number))) }
{
    let Some(noted) = ground.recording().run_of(number) else {
        return Ok(false);
    };
    match ground.edits().get(number) {
        Some(Edit::Cancel(_)) => Ok(false),
        Some(Edit::Replace(_, _)) => Ok(true),
        None => Ok(!holds(alloc, &noted.notes, &ground.view(number))?),
    }
}

/// Gives all jobs back.
pub fn give_all_back(mut jobs: Vec<Job>) {
    while let Some(job) = jobs.pop() {
        job.give_back();
    }
    jobs.destroy_empty();
}
