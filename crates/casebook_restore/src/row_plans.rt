//! Rows that were kept, as a plan.
ghost use Rattle.std.specs.Prelude.{◌≡◌, ◌++◌, ◌∷◌, [], IfOk, IfSome, OnOk, map};
ghost use Rattle.casebook_folder.specs.Steps.{after_steps};
ghost use Rattle.casebook_restore.specs.RowPlans.{attributes_found, change_of_row, node_found};
ghost use Rattle.casebook_restore.specs.RowPlans.{planned_in, planned_of_row, state_of_row};

use crate::NoMem;
use crate::task::RestorePlan;
use casebook_folder::{
    Attributes, Change, Folder, FolderError, Found, PlannedRow, Row, Rows, State,
};
use retro_path::Listing;
use retro_tree::Node;
use std::alloc::Global;

/// The attributes of what has none.
const NONE: Attributes = Attributes {
    mode: 0,
    uid: 0,
    gid: 0,
};

/// Returns what is found as a tree has it.
pub(crate) fn node_found(found: &Found) -> Result<Node, NoMem>
    ensures { IfOk result (λ node. node ≡ node_found found.now) }
{
    match found {
        Found::Missing | Found::Blocked(_) => Ok(Node::Missing),
        Found::Dir(_) => Ok(Node::Dir),
        Found::File(bytes, _) => Ok(Node::File(bytes.copy()?)),
    }
}

/// Returns the mode and owner of what is found.
fn attributes_found(found: &Found) -> Attributes
    ensures { result ≡ attributes_found found.now }
{
    match found {
        Found::Dir(attributes) | Found::File(_, attributes) => *attributes,
        Found::Missing | Found::Blocked(_) => NONE,
    }
}

/// Returns a row as a change.
fn change_of(alloc: Global, row: &Row) -> Result<Change, NoMem>
    ensures { IfOk result (λ change. change ≡ change_of_row row.now) }
{
    Ok(Change {
        path: row.path.copy()?,
        old: node_found(&row.before)?,
        new: node_found(&row.after)?,
        given: attributes_found(&row.after),
        children: Listing::of(Vec::new(alloc)),
    })
}

/// Returns how a folder is to a row, by what it holds at the path.
fn state_of(row: &Row, found: &Found) -> State
    ensures { result ≡ state_of_row row.now found.now }
{
    if let Found::Blocked(obstacle) = found {
        return State::Blocked(*obstacle);
    }
    if found.is_same(&row.after) {
        return State::Done;
    }
    if found.is_same(&row.before) || found.is_missing() {
        return State::Ready;
    }
    State::Differs
}

/// Returns a row with what is found at its path.
fn planned_of(alloc: Global, row: &Row, found: Found) -> Result<PlannedRow, NoMem>
    ensures { IfOk result (λ planned. planned ≡ planned_of_row row.now found) }
{
    let state = state_of(row, &found);
    Ok(PlannedRow {
        change: change_of(alloc, row)?,
        before: found,
        after: row.after.copy()?,
        state,
    })
}

/// Appends a row with what a folder holds at its path.
fn add_row<F: Folder>(
    alloc: Global,
    planned: &mut Vec<PlannedRow>,
    folder: &F,
    row: &Row,
) -> Result<(), FolderError>
    ensures { IfSome (F.first folder.now) (λ first. OnOk result (planned.new.items
        ≡ planned.old.items ++ planned_in (after_steps (F.made folder.now) first) row.now ∷ [])) }
{
    let found = folder.look(&row.path)?;
    planned.push(planned_of(alloc, row, found)?)?;
    Ok(())
}

/// Returns how a folder is to each of some rows. Only looks at it.
pub fn plan_rows<F: Folder>(
    alloc: Global,
    folder: &F,
    rows: &Rows,
) -> Result<RestorePlan, FolderError>
    ensures rows { IfSome (F.first folder.now) (λ first. IfOk result (λ plan. plan.rows.items
        ≡ map (planned_in (after_steps (F.made folder.now) first)) rows.now.items.items)) }
    ensures unkept { IfOk result (λ plan. plan.unkept.items ≡ []) }
    ensures outside { IfOk result (λ plan. plan.outside ≡ 0) }
    ensures left_out { IfOk result (λ plan. plan.left_out ≡ 0) }
{
    let mut planned = Vec::new(alloc);
    for row in &rows.items {
        add_row(alloc, &mut planned, folder, row)?;
    }
    Ok(RestorePlan {
        rows: planned,
        unkept: Vec::new(alloc),
        outside: 0,
        left_out: 0,
    })
}
