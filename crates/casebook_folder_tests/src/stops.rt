//! Plans that are stopped at each step, gone on with, and undone.
use crate::calls::Pair;
use crate::texts::memory;
use casebook_folder::{FolderError, Memory, Rows, apply, undo};
use retro_rows::fail;
use std::alloc::Global;
use std::test::Fail;

/// A plan over a folder, and what the folder holds before and after it.
#[derive(Drop)]
struct Trial<'a> {
    pair: &'a Pair,
    folder: &'a str,
    rows: &'a Rows,
    before: &'a str,
    after: &'a str,
}

impl Trial<'_> {
    /// Returns the folder after so many steps of the plan, and maybe the next one. If that isn't
    /// made, a part of its new node is left.
    fn stopped(&self, alloc: Global, steps: usize, makes_the_last: bool) -> Result<Memory, Fail> {
        let mut folder = memory(alloc, self.folder)?;
        folder.stop_after(steps, makes_the_last);
        let result = apply(alloc, &mut folder, self.rows);
        folder.stop_after(usize::MAX, false);
        if folder.parts() != usize::from(!makes_the_last) {
            return fail("a stopped step left another number of parts");
        }
        match result {
            Err(FolderError::Failed) => Ok(folder),
            _ => fail("the plan wasn't stopped"),
        }
    }

    /// Fails unless the folder holds what is wanted and no part of a new node is left.
    fn holds(&self, alloc: Global, folder: &Memory, wanted: &str) -> Result<(), Fail> {
        if self.pair.held(alloc, folder)?.as_str() != wanted {
            return fail("the folder holds something else");
        }
        if folder.parts() != 0 {
            return fail("a part of a new node is left");
        }
        Ok(())
    }

    /// Goes on with a stopped plan.
    fn goes_on(&self, alloc: Global, steps: usize, makes_the_last: bool) -> Result<(), Fail> {
        let mut folder = self.stopped(alloc, steps, makes_the_last)?;
        apply(alloc, &mut folder, self.rows)?;
        self.holds(alloc, &folder, self.after)
    }

    /// Undoes a stopped plan, stops that too, and goes on with it.
    fn is_undone(&self, alloc: Global, steps: usize, makes_the_last: bool) -> Result<(), Fail> {
        let mut folder = self.stopped(alloc, steps, makes_the_last)?;
        let back = undo(alloc, self.rows)?;
        folder.stop_after(steps / 2, makes_the_last);
        let _ = apply(alloc, &mut folder, &back);
        folder.stop_after(usize::MAX, false);
        apply(alloc, &mut folder, &back)?;
        self.holds(alloc, &folder, self.before)
    }
}

/// Stops the plan of two trees at each step, made or not. Returns the number of steps.
pub fn stops(alloc: Global, old: &str, new: &str, field: &str) -> Result<String, Fail> {
    let pair = Pair::of(alloc, old, new)?;
    let mut folder = memory(alloc, field)?;
    let before = pair.held(alloc, &folder)?;
    let plan = pair.plan(alloc, &folder)?;
    let rows = Rows::of_plan(alloc, plan.as_slice())?;
    apply(alloc, &mut folder, &rows)?;
    let after = pair.held(alloc, &folder)?;
    let trial = Trial {
        pair: &pair,
        folder: field,
        rows: &rows,
        before: before.as_str(),
        after: after.as_str(),
    };
    for steps in 0..folder.steps() {
        for makes_the_last in [false, true] {
            trial.goes_on(alloc, steps, makes_the_last)?;
            trial.is_undone(alloc, steps, makes_the_last)?;
        }
    }
    Ok(format!(in alloc; "{} rows, {} steps", rows.items.len(), folder.steps())?)
}
