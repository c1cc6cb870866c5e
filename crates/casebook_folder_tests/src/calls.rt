//! The calls of rows.
use crate::texts::{attributes_of, entries, found, found_text, memory, name, push_after, state};
use casebook_folder::{
    Folder, FolderError, GivenAttributes, Memory, PlannedRow, Row, Rows, State as PlanState, Trees,
    apply, plan,
};
use retro_path::{NoMem, Path};
use retro_rows::{path, text};
use retro_tree::State;
use std::alloc::Global;
use std::collections::{BTreeMap, BTreeSet};
use std::test::Fail;

/// A recorded and a repaired tree, and the paths of both.
#[derive(Drop)]
pub struct Pair {
    recorded: State,
    repaired: State,
    given: GivenAttributes,
    paths: Vec<Path>,
}

impl Pair {
    /// Reads two trees.
    pub fn of(alloc: Global, recorded: &str, repaired: &str) -> Result<Pair, Fail> {
        let old = entries(alloc, recorded)?;
        let new = entries(alloc, repaired)?;
        let mut paths = BTreeSet::new(alloc);
        for entry in &old {
            paths.insert(entry.path.copy()?)?;
        }
        for entry in &new {
            paths.insert(entry.path.copy()?)?;
        }
        let mut all = Vec::new(alloc);
        for path in paths {
            all.push(path)?;
        }
        Ok(Pair {
            recorded: state(alloc, old.as_slice())?,
            repaired: state(alloc, new.as_slice())?,
            given: given(alloc)?,
            paths: all,
        })
    }

    /// Returns the plan of the trees for a folder.
    pub fn plan(&self, alloc: Global, folder: &Memory) -> Result<Vec<PlannedRow>, FolderError> {
        let trees = Trees {
            recorded: self.recorded.tree(),
            repaired: self.repaired.tree(),
            given: &self.given,
        };
        plan(alloc, folder, &trees, self.paths.as_slice())
    }

    /// Returns what a folder holds at the paths of the trees, without the missing ones.
    pub fn held(&self, alloc: Global, folder: &Memory) -> Result<String, FolderError> {
        let mut out = String::new(alloc);
        for path in &self.paths {
            let found = folder.look(path)?;
            if !found.is_missing() {
                let text = found_text(alloc, &found)?;
                let entry = format!(in alloc; "{} {}", name(path), text.as_str())?;
                push_after(&mut out, ", ", entry.as_str())?;
            }
        }
        Ok(out)
    }
}

/// Returns the attributes of new nodes: those of `/known` and `/known.d` are known.
fn given(alloc: Global) -> Result<GivenAttributes, Fail> {
    let mut files = BTreeMap::new(alloc);
    files.insert(path(alloc, "/known")?, attributes_of(0o4750))?;
    let mut dirs = BTreeMap::new(alloc);
    dirs.insert(path(alloc, "/known.d")?, attributes_of(0o2775))?;
    Ok(GivenAttributes {
        files,
        dirs,
        file: attributes_of(0o600),
        dir: attributes_of(0o700),
    })
}

/// Returns the word of a state.
fn state_text(alloc: Global, state: PlanState) -> Result<String, NoMem> {
    match state {
        PlanState::Ready => text(alloc, "ready"),
        PlanState::Done => text(alloc, "done"),
        PlanState::Differs => text(alloc, "differs"),
        PlanState::Blocked(obstacle) => format!(in alloc; "blocked by {obstacle:?}"),
    }
}

/// Returns the plan of two trees for a folder, as text.
pub fn planned(alloc: Global, old: &str, new: &str, folder: &str) -> Result<String, Fail> {
    let pair = Pair::of(alloc, old, new)?;
    let rows = pair.plan(alloc, &memory(alloc, folder)?)?;
    let mut out = String::new(alloc);
    for row in &rows {
        let line = format!(in alloc;
            "{} {}: {} > {}",
            state_text(alloc, row.state)?.as_str(),
            name(&row.change.path),
            found_text(alloc, &row.before)?.as_str(),
            found_text(alloc, &row.after)?.as_str()
        )?;
        push_after(&mut out, "; ", line.as_str())?;
    }
    Ok(out)
}

/// Returns what a folder holds after the plan of two trees, or the error.
pub fn applied(alloc: Global, old: &str, new: &str, folder: &str) -> Result<String, Fail> {
    let pair = Pair::of(alloc, old, new)?;
    let mut folder = memory(alloc, folder)?;
    match carried_out(alloc, &pair, &mut folder) {
        Ok(held) => Ok(held),
        Err(error) => Ok(format!(in alloc; "{error:?}")?),
    }
}

/// Carries out the plan of two trees. Returns what the folder holds then.
fn carried_out(alloc: Global, pair: &Pair, folder: &mut Memory) -> Result<String, FolderError> {
    let plan = pair.plan(alloc, folder)?;
    let rows = Rows::of_plan(alloc, plan.as_slice())?;
    apply(alloc, folder, &rows)?;
    pair.held(alloc, folder)
}

/// Returns what is returned for the rows of a plan for a folder, which were kept, and another plan,
/// for another folder.
pub fn kept(alloc: Global, one: [&str; 3], two: [&str; 3]) -> Result<String, Fail> {
    let [old, new, folder] = one;
    let plan = Pair::of(alloc, old, new)?.plan(alloc, &memory(alloc, folder)?)?;
    let rows = Rows::of_plan(alloc, plan.as_slice())?;
    let [old, new, folder] = two;
    let plan = Pair::of(alloc, old, new)?.plan(alloc, &memory(alloc, folder)?)?;
    taken_for(alloc, rows, plan.as_slice())
}

/// Returns what is returned for the rows of a plan for a folder, which were kept, and the same plan
/// from its last row on.
pub fn kept_backwards(alloc: Global, old: &str, new: &str, folder: &str) -> Result<String, Fail> {
    let mut plan = Pair::of(alloc, old, new)?.plan(alloc, &memory(alloc, folder)?)?;
    let rows = Rows::of_plan(alloc, plan.as_slice())?;
    plan.reverse();
    taken_for(alloc, rows, plan.as_slice())
}

/// Returns `fit` if rows are taken for a plan, or the error.
fn taken_for(alloc: Global, rows: Rows, plan: &[PlannedRow]) -> Result<String, Fail> {
    match rows.for_plan(plan) {
        Ok(_) => Ok(text(alloc, "fit")?),
        Err(error) => Ok(format!(in alloc; "{error:?}")?),
    }
}

/// Returns what is returned for rows of these paths, in this order.
pub fn taken(alloc: Global, paths: &str) -> Result<String, Fail> {
    let mut rows = Vec::new(alloc);
    for entry in entries(alloc, paths)? {
        rows.push(Row {
            path: entry.path.copy()?,
            before: entry.found.copy()?,
            after: entry.found.copy()?,
        })?;
    }
    match Rows::of(rows) {
        Ok(rows) => Ok(format!(in alloc; "{}", rows.items.len())?),
        Err(error) => Ok(format!(in alloc; "{error:?}")?),
    }
}

/// Returns what a put returns, and what the path holds after it.
pub fn put(
    alloc: Global,
    folder: &str,
    at: &str,
    before: &str,
    after: &str,
) -> Result<String, Fail> {
    let mut folder = memory(alloc, folder)?;
    let at = path(alloc, at)?;
    let before: Vec<&str> = before.split(' ').collect(alloc)?;
    let after: Vec<&str> = after.split(' ').collect(alloc)?;
    let before = found(alloc, before.as_slice())?;
    let after = found(alloc, after.as_slice())?;
    let result = folder.put(&at, &before, &after);
    let held = found_text(alloc, &folder.look(&at)?)?;
    Ok(format!(in alloc; "{result:?} {}", held.as_str())?)
}
