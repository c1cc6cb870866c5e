//! The guesses of the jobs that a seat gives.
ghost use Rattle.std.specs.Prelude.{List, ℕ, []};

use crate::boards::deal_all;
use crate::grounds::{LINES, jobs_of, jobs_on, recording_of, settle_first};
use retro_history::History;
use retro_keep::Edit;
use retro_pool::{Board, Guess, Seat, TakeOutcome, Thief, work};
use retro_redo::{Gate, Ground, Quiet, Repairer, Turn};
use retro_rows::{fail, text, utf8};
use retro_tree::{NoMem, Text};
use std::alloc::Global;
use std::sync::atomic::{AtomicU32, Ordering};
use std::test::Fail;

/// A seat that is always busy.
#[derive(Drop)]
struct Busy;

impl Seat for Busy {
    ghost board = { λ _. (0, 0) };

    ghost taken = { λ _. [] };

    fn take(&mut self) -> TakeOutcome {
        TakeOutcome::Busy
    }
}

/// An observer that counts the executions of guesses.
#[derive(Drop)]
struct Watch {
    begun: AtomicU32,
    ended: AtomicU32,
}

impl Gate for Watch {
    fn begin(&self, _number: u32, turn: Turn) {
        if turn == Turn::Guess {
            self.begun.fetch_add(1, Ordering::SeqCst);
        }
    }

    fn end(&self, _number: u32, turn: Turn) {
        if turn == Turn::Guess {
            self.ended.fetch_add(1, Ordering::SeqCst);
        }
    }
}

/// Returns guesses with their outputs as a text.
fn guesses_text(alloc: Global, guesses: &[Guess]) -> Result<String, Fail> {
    let mut out = text(alloc, "")?;
    for guess in guesses {
        out.push_str(&format!(in alloc; "{}: ", guess.number)?)?;
        out.push_str(utf8(guess.run.output().as_slice())?)?;
    }
    Ok(out)
}

/// Works until no job is left or there are as many guesses as `room`. Returns the guesses as a
/// text, after the number of jobs that gave none.
fn worked<G: Gate>(
    alloc: Global,
    thief: &mut Thief,
    ground: &Ground<'_, '_, '_>,
    gate: &G,
    room: usize,
) -> Result<String, Fail> {
    let mut guesses = Vec::with_capacity(alloc, room)?;
    let without = work(alloc, thief, ground, gate, &mut guesses);
    let told = guesses_text(alloc, guesses.as_slice())?;
    Ok(format!(in alloc; "{without} without; {told}")?)
}

/// What the job of each line but the first prints, over the state in which the first line wrote
/// nothing, and the others what they wrote in the recording.
const GUESSES: &str = concat!(
    "0 without; 2: cat: /tmp/k: No such file or directory\n",
    "3: p\ncat: /tmp/k: No such file or directory\n",
    "4: cat: /tmp/k: No such file or directory\n",
    "0 without; 5: grep: /tmp/k: No such file or directory\n",
    "0 without; "
);

/// Works on the jobs of `LINES` three times, with room for three guesses each time. Returns the
/// guesses as a text.
fn worked_thrice<G: Gate>(
    alloc: Global,
    ground: &Ground<'_, '_, '_>,
    gate: &G,
) -> Result<String, Fail> {
    let (mut owner, mut thieves) = Board::new(alloc, 1, 4)?;
    let Some(mut thief) = thieves.pop() else {
        return fail("no thief");
    };
    if deal_all(&mut owner, jobs_of(alloc, LINES)?).is_some() {
        return fail("full");
    }
    let mut told = text(alloc, "")?;
    for _ in 0..3 {
        told.push_str(worked(alloc, &mut thief, ground, gate, 3)?.as_str())?;
    }
    Ok(told)
}

/// Works on the jobs of `LINES` over the ground of a recording of other lines, whose first line is
/// settled as cancelled. Returns the guesses as a text.
fn worked_over<G: Gate>(alloc: Global, lines: &str, gate: &G) -> Result<String, Fail> {
    let recording = recording_of(alloc, lines)?;
    let history = History::of(alloc, &recording)?;
    let edits: [Edit; 1] = [Edit::Cancel(1)];
    let mut repairer = Repairer::new(alloc, &recording, &history, &edits)?;
    settle_first(alloc, &mut repairer)?;
    let ground = repairer.ground();
    worked_thrice(alloc, &ground, gate)
}

#[test]
fn jobs_run_over_the_ground(rt: HostRuntime) -> Result<(), Fail> {
    let watch = Watch {
        begun: AtomicU32::new(0),
        ended: AtomicU32::new(0),
    };
    let told = worked_over(rt.alloc(), LINES, &watch)?;
    assert_eq!(rt; told.as_str(), GUESSES);
    assert_eq!(rt; watch.begun.load(Ordering::SeqCst), 4);
    assert_eq!(rt; watch.ended.load(Ordering::SeqCst), 4);
    Ok(())
}

#[test]
fn jobs_of_other_recordings_are_given_back(rt: HostRuntime) -> Result<(), Fail> {
    let told = worked_over(rt.alloc(), "2 echo p > /tmp/k;;1 cat /tmp/k", &Quiet)?;
    let want = "2 without; 2: cat: /tmp/k: No such file or directory\n1 without; 0 without; ";
    assert_eq!(rt; told.as_str(), want);
    Ok(())
}

/// Lines of which the first is settled as cancelled. Then the notes of the lines that read what it
/// wrote don't hold, and those of the third and of the last one hold.
const EDITED: &str = concat!(
    "2 echo p > /tmp/k;;1 cat /tmp/k;;1 echo b;;1 cat /tmp/k;;1 cat /tmp/k;;",
    "1 echo c"
);

/// What the jobs of `EDITED` print if the third line and the fifth one have other texts and the
/// fourth one is cancelled.
const EDITED_GUESSES: &str = concat!(
    "0 without; 2: cat: /tmp/k: No such file or directory\n",
    "3: z\n",
    "5: y\n"
);

/// Works on the jobs of `EDITED` over its own ground. Returns the guesses as a text.
fn worked_edited(alloc: Global) -> Result<String, Fail> {
    let recording = recording_of(alloc, EDITED)?;
    let history = History::of(alloc, &recording)?;
    let edits: [Edit; 4] = [
        Edit::Cancel(1),
        Edit::Replace(3, Text::of(text(alloc, "echo z")?)),
        Edit::Cancel(4),
        Edit::Replace(5, Text::of(text(alloc, "echo y")?)),
    ];
    let mut repairer = Repairer::new(alloc, &recording, &history, &edits)?;
    settle_first(alloc, &mut repairer)?;
    let ground = repairer.ground();
    let (mut owner, mut thieves) = Board::new(alloc, 1, 6)?;
    let Some(mut thief) = thieves.pop() else {
        return fail("no thief");
    };
    if deal_all(&mut owner, jobs_on(alloc, &ground)?).is_some() {
        return fail("full");
    }
    worked(alloc, &mut thief, &ground, &Quiet, 6)
}

#[test]
fn jobs_run_the_new_texts_of_replaced_lines(rt: HostRuntime) -> Result<(), Fail> {
    let told = worked_edited(rt.alloc())?;
    assert_eq!(rt; told.as_str(), EDITED_GUESSES);
    Ok(())
}

/// Works on a seat that is always busy. Returns how many jobs gave no guess, and how many did.
fn worked_in_vain(alloc: Global) -> Result<(usize, usize), Fail> {
    let recording = recording_of(alloc, LINES)?;
    let history = History::of(alloc, &recording)?;
    let edits: [Edit; 1] = [Edit::Cancel(1)];
    let repairer = Repairer::new(alloc, &recording, &history, &edits)?;
    let ground = repairer.ground();
    let mut guesses = Vec::with_capacity(alloc, 4)?;
    let mut busy = Busy;
    let without = work(alloc, &mut busy, &ground, &Quiet, &mut guesses);
    Ok((without, guesses.len()))
}

#[test]
fn a_busy_seat_ends_the_work(rt: HostRuntime) -> Result<(), Fail> {
    assert_eq!(rt; worked_in_vain(rt.alloc())?, (0, 0));
    Ok(())
}
