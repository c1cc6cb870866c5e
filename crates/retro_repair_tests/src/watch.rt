//! An observer that counts the executions of each line. Threads can share it.
use retro_redo::{Gate, Turn};
use retro_tree::NoMem;
use std::alloc::Global;
use std::sync::atomic::{AtomicU32, Ordering};

/// How often a line's execution began, and how often it ended.
#[derive(Drop)]
struct Counts {
    begun: AtomicU32,
    ended: AtomicU32,
}

impl Counts {
    fn new() -> Counts {
        Counts {
            begun: AtomicU32::new(0),
            ended: AtomicU32::new(0),
        }
    }

    /// Appends a line's number and turn, if it was executed, and how often unless once.
    fn push(
        &self,
        alloc: Global,
        out: &mut String,
        number: usize,
        turn: &str,
    ) -> Result<(), NoMem> {
        let begun = self.begun.load(Ordering::SeqCst);
        let ended = self.ended.load(Ordering::SeqCst);
        if begun == 1 && ended == 1 {
            return out.push_str(&format!(in alloc; " {number} {turn}")?);
        }
        if begun == 0 && ended == 0 {
            return Ok(());
        }
        out.push_str(&format!(in alloc; " {number} {turn}, {begun} begun, {ended} ended")?)
    }
}

/// Counts of the executions of each line, by its number: as guesses, and at their turns.
#[derive(Drop)]
pub struct Watch {
    guesses: Vec<Counts>,
    places: Vec<Counts>,
}

/// Returns counts of nothing, for the lines with numbers up to another.
fn counts_up_to(alloc: Global, last: u32) -> Result<Vec<Counts>, NoMem> {
    let mut counts = Vec::new(alloc);
    for _ in 0..=last {
        counts.push(Counts::new())?;
    }
    Ok(counts)
}

impl Watch {
    /// Returns an observer of the lines with numbers up to another, which has counted nothing.
    pub fn new(alloc: Global, last: u32) -> Result<Watch, NoMem> {
        Ok(Watch {
            guesses: counts_up_to(alloc, last)?,
            places: counts_up_to(alloc, last)?,
        })
    }

    fn counts(&self, number: u32, turn: Turn) -> Option<&Counts> {
        match turn {
            Turn::Guess => self.guesses.get(number as usize),
            Turn::Place => self.places.get(number as usize),
        }
    }

    /// Returns the number of each executed line, with `guess` or `place`, guesses first.
    pub fn executions(&self, alloc: Global) -> Result<String, NoMem> {
        let mut out = String::from_str(alloc, "executed")?;
        for (number, counts) in self.guesses.iter().enumerate() {
            counts.push(alloc, &mut out, number, "guess")?;
        }
        for (number, counts) in self.places.iter().enumerate() {
            counts.push(alloc, &mut out, number, "place")?;
        }
        Ok(out)
    }
}

impl Gate for Watch {
    fn begin(&self, number: u32, turn: Turn) {
        if let Some(counts) = self.counts(number, turn) {
            counts.begun.fetch_add(1, Ordering::SeqCst);
        }
    }

    fn end(&self, number: u32, turn: Turn) {
        if let Some(counts) = self.counts(number, turn) {
            counts.ended.fetch_add(1, Ordering::SeqCst);
        }
    }
}
