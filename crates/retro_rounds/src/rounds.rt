//! The rounds of a repair.
ghost use Rattle.std.specs.Prelude.{◌≡◌, ◌+◌, ◌<◌, ◌≤◌, [], true, IfOk, OnOk, length};
ghost use Rattle.std.specs.List.{AllByRecursion};
ghost use Rattle.retro_keep.specs.Recording.{number_in};
ghost use Rattle.retro_redo.specs.Meetings.{lines_until};
ghost use Rattle.retro_redo.specs.Picks.{PicksBy};
ghost use Rattle.retro_redo.specs.NextLine.{IsNextLine};
ghost use Rattle.retro_redo.specs.Progress.{edit_in};
ghost use Rattle.retro_redo.specs.Settling.{IsOneMore};
ghost use Rattle.retro_redo.specs.Repair.{no_guesses};
ghost use Rattle.retro_rounds.specs.Refusals.{are_cuts};
ghost use Rattle.retro_rounds.specs.Tally.{spent};
ghost use Rattle.retro_rounds.specs.inner.Attempts.{IsAttempt, numbers_of};
ghost use Rattle.retro_rounds.specs.inner.Rounds.{IsAdvanced, IsCounted, IsJobNow, IsPassed};
ghost use Rattle.retro_rounds.specs.inner.Rounds.{counted};

use crate::attempt::Attempt;
use crate::attempts::Attempts;
use crate::crew::Crew;
use crate::guesses::guesses_of;
use crate::jobs::in_order;
use crate::pieces::Pieces;
use retro_pool::make_jobs;
use retro_redo::{Gate, Line, Repairer, Settlement, Tally};
use retro_tree::NoMem;
use std::alloc::Global;
use std::thread::Threads;

/// How far a repair has come in its rounds.
#[derive(Drop)]
pub(crate) struct Rounds<'c> {
    /// The piece of the current round.
    pieces: Pieces<'c>,
    /// The attempts at lines of the piece that aren't settled.
    attempts: Attempts,
    tally: Tally,
}

impl<'c> Rounds<'c> {
    /// Returns the rounds of a repair that has settled no line.
    pub(crate) fn new(alloc: Global, cuts: &'c [u32]) -> Rounds<'c>
        ensures end { result.pieces.end ≡ 0 }
        ensures cuts { result.pieces.cuts.now ≡ cuts.now }
        ensures attempts { result.attempts.queue.items ≡ [] }
        ensures tally { result.tally ≡ no_guesses }
    {
        Rounds {
            pieces: Pieces { end: 0, cuts },
            attempts: Attempts::none(alloc),
            tally: Tally::none(),
        }
    }

    /// Drops the attempts at lines before the one with the given number, which were kept without
    /// being read.
    pub(crate) fn pass_to(&mut self, number: u32)
        requires { self.old.tally.jobs
            ≡ spent self.old.tally + length self.old.attempts.queue.items }
        ensures { IsPassed number self.old self.new }
    {
        // For the prover: a number that is read fits its type.
        let _jobs = self.tally.jobs;
        self.tally.unused += self.attempts.pass_to(number);
    }

    /// Begins the round of the piece that the next line is in, if the last round is over.
    pub(crate) fn advance<R: Threads + Sync, G: Gate + Sync>(
        &mut self,
        crew: &Crew<'_, R>,
        alloc: Global,
        repairer: &Repairer<'_, '_, '_>,
        gate: &G,
    ) -> Result<(), NoMem>
        requires unsettled { length repairer.now.choices < length repairer.now.recording.lines }
        requires cuts { are_cuts self.old.pieces.cuts.now ≡ true }
        requires over { self.old.pieces.end ≤ length repairer.now.choices
            → self.old.attempts.queue.items ≡ [] }
        requires few { self.old.tally.jobs
            ≤ length repairer.now.choices + length self.old.attempts.queue.items }
        ensures { OnOk result (IsAdvanced repairer.now self.old self.new) }
    {
        let settled = repairer.settled_count();
        if settled < self.pieces.end {
            return Ok(());
        }
        let lines = repairer.ground().recording().lines();
        self.pieces.find(settled);
        let end = self.pieces.end.min(lines.len());
        let attempts = attempts_until(crew, alloc, repairer, end, gate)?;
        self.tally.jobs += attempts.len();
        self.attempts = Attempts::of(attempts);
        Ok(())
    }

    /// Settles the next line, `line`, by the attempt at it if there is one.
    pub(crate) fn settle<'a, 'e, G: Gate>(
        &mut self,
        alloc: Global,
        repairer: &mut Repairer<'_, 'a, 'e>,
        line: Line<'a, 'e>,
        gate: &G,
    ) -> Result<(), NoMem>
        requires next { IsNextLine repairer.old line }
        requires attempts { AllByRecursion
            (IsAttempt (edit_in repairer.old) repairer.old.recording)
            self.old.attempts.queue.items }
        requires sum { self.old.tally.jobs
            ≡ spent self.old.tally + length self.old.attempts.queue.items }
        ensures one { OnOk result (IsOneMore repairer.old repairer.new) }
        ensures counted { OnOk result
            (IsCounted repairer.old repairer.new line.entry.number self.old self.new) }
    {
        // For the prover: the contract of `lines` says that the recording is well formed.
        let _ = repairer.ground().recording().lines();
        match self.attempts.take(line.number) {
            None => {
                repairer.settle(alloc, line, None, gate)?;
            }
            Some(attempt) => {
                let was_made = attempt.run.is_some();
                let how = repairer.settle(alloc, line, attempt.run, gate)?;
                count(&mut self.tally, how, was_made);
            }
        }
        Ok(())
    }

    /// Returns the counts. All lines must be settled, so the attempts that are left are of no use.
    pub(crate) fn finish(self) -> Tally
        requires { self.tally.jobs ≡ spent self.tally + length self.attempts.queue.items }
        ensures { result ≡ record self.entry.tally {
          unused = self.entry.tally.unused + length self.entry.attempts.queue.items;
        } }
    {
        let Rounds {
            pieces: _,
            attempts,
            mut tally,
        } = self;
        tally.unused += attempts.len();
        tally
    }
}

/// Counts how a line was settled at which an attempt was made. `was_made` says whether the attempt
/// gave a guess.
fn count(tally: &mut Tally, how: Settlement, was_made: bool)
    requires { spent tally.old < tally.old.jobs }
    ensures { tally.new ≡ counted how was_made tally.old }
{
    match how {
        Settlement::Cancelled | Settlement::Kept => tally.unused += 1,
        Settlement::TakenUp => tally.taken_up += 1,
        Settlement::Redone if was_made => tally.wrong += 1,
        Settlement::Redone => tally.given_up += 1,
    }
}

/// Makes an attempt at each line up to the index `end` that is likely to be run again.
fn attempts_until<R: Threads + Sync, G: Gate + Sync>(
    crew: &Crew<'_, R>,
    alloc: Global,
    repairer: &Repairer<'_, '_, '_>,
    end: usize,
    gate: &G,
) -> Result<Vec<Attempt>, NoMem>
    requires { end ≤ length repairer.now.recording.lines }
    ensures attempts { IfOk result (λ attempts.
        AllByRecursion (IsAttempt (edit_in repairer.now) repairer.now.recording)
        attempts.items) }
    ensures jobs { IfOk result (λ attempts. PicksBy number_in (IsJobNow repairer.now)
        (lines_until end repairer.now) (numbers_of attempts.items)) }
{
    let numbers = repairer.stops_until(alloc, end)?;
    let ground = repairer.ground();
    // For the prover: the contract of `lines` says that the recording is well formed.
    let _ = ground.recording().lines();
    let jobs = make_jobs(alloc, &ground, in_order(alloc, &numbers)?.as_slice())?;
    guesses_of(crew, alloc, &ground, jobs, gate)
}
