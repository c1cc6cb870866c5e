//! That two threads run guesses at the same time.
use crate::recordings::recording;
use crate::rounds::tally_text;
use retro_keep::Edit;
use retro_redo::{Gate, Turn};
use retro_rounds::repair;
use retro_rows::fail;
use std::sync::atomic::{AtomicBool, Ordering};
use std::test::Fail;
use std::thread;
use std::time::Duration;

/// An observer that holds the guess of line 2 until that of line 3 has begun, for some ten seconds
/// at most.
#[derive(Drop)]
struct Holding {
    rt: HostRuntime,
    /// Whether the guess of line 3 has begun.
    begun: AtomicBool,
    /// Whether it began while that of line 2 was held.
    seen: AtomicBool,
}

impl Gate for Holding {
    fn begin(&self, number: u32, turn: Turn) {
        match (number, turn) {
            (2, Turn::Guess) => self.hold(),
            (3, Turn::Guess) => self.begun.store(true, Ordering::SeqCst),
            _ => {}
        }
    }

    fn end(&self, _number: u32, _turn: Turn) {}
}

impl Holding {
    fn hold(&self) {
        for _ in 0..10_000 {
            if self.begun.load(Ordering::SeqCst) {
                self.seen.store(true, Ordering::SeqCst);
                return;
            }
            thread::sleep(&self.rt, Duration::from_millis(1));
        }
    }
}

#[test]
fn two_guesses_run_at_once(rt: HostRuntime) -> Result<(), Fail> {
    let alloc = rt.alloc();
    let lines = concat!(
        "2 echo p > /tmp/k;;1 cat /tmp/k > a;;1 cat a /tmp/k;;1 cat /tmp/k;;",
        "1 grep -F p /tmp/k"
    );
    let recording = recording(alloc, "", lines)?;
    let holding = Holding {
        rt,
        begun: AtomicBool::new(false),
        seen: AtomicBool::new(false),
    };
    let cuts: [u32; 2] = [1, 4];
    let edits: [Edit; 1] = [Edit::Cancel(1)];
    let Ok(repair) = repair(&rt, alloc, &recording, &edits, 2, &cuts, &holding) else {
        return fail("refused");
    };
    assert_eq!(rt; holding.seen.load(Ordering::SeqCst), true);
    let counts = tally_text(alloc, &repair.tally)?;
    assert_eq!(rt;
        counts.as_str(),
        "4 jobs: 3 taken up, 0 unused, 1 wrong, 0 given up"
    );
    Ok(())
}
