//! The rows of a status.
ghost use Rattle.std.specs.Prelude.{◌≡◌, ◌++◌, IfOk, OnOk, map, option_map};
ghost use Rattle.casebook_host.specs.LoginViews.{login_value};
ghost use Rattle.casebook_typed.specs.Values.{session_value};
ghost use Rattle.casebook_status.specs.Rows.{case_row, folders_row, lines_row, logins_row};
ghost use Rattle.casebook_status.specs.Rows.{missing_row, outside_row, overlaps_row, people_words};
ghost use Rattle.casebook_status.specs.Rows.{reads_row, sessions_row, unseen_row};

use crate::NoMem;
use crate::counts::Counts;
use crate::pieces::{
    folder_pieces, login_pieces, missing_pieces, path_pieces, people_pieces, push_listed,
};
use casebook_host::Login;
use casebook_text::SafeLine;
use casebook_typed::Session;
use retro_path::Path;
use std::alloc::Global;

/// Returns which folders are watched.
#[tactic(auto, unfolding(crate::specs::Rows::folders_row))]
pub(crate) fn folders_row(alloc: Global, folders: &[Path]) -> Result<SafeLine, NoMem>
    ensures { IfOk result (λ row. row ≡ folders_row folders.now) }
{
    let mut row = SafeLine::new(alloc);
    row.push_ascii("  folders   ")?;
    push_listed(&mut row, folder_pieces(alloc, folders)?.as_slice())?;
    Ok(row)
}

/// Appends the users of sessions, if some are known.
fn push_people(alloc: Global, row: &mut SafeLine, sessions: &[Session<'_>]) -> Result<(), NoMem>
    ensures { OnOk result (row.new
        ≡ row.old ++ people_words (map session_value sessions.now)) }
{
    let pieces = people_pieces(alloc, sessions)?;
    if pieces.is_empty() {
        return Ok(());
    }
    row.push_ascii(": ")?;
    push_listed(row, pieces.as_slice())
}

/// Returns how many sessions were recorded, and whose.
#[tactic(auto, unfolding(crate::specs::Rows::sessions_row))]
pub(crate) fn sessions_row(alloc: Global, sessions: &[Session<'_>]) -> Result<SafeLine, NoMem>
    ensures { IfOk result (λ row. row ≡ sessions_row (map session_value sessions.now)) }
{
    let mut row = SafeLine::new(alloc);
    row.push_ascii("  sessions  ")?;
    row.push_number(alloc, sessions.len() as u64)?;
    push_people(alloc, &mut row, sessions)?;
    Ok(row)
}

/// Returns how many lines there are, and how they stand.
#[tactic(auto, unfolding(crate::specs::Rows::lines_row))]
pub(crate) fn lines_row(alloc: Global, counts: Counts) -> Result<SafeLine, NoMem>
    ensures { IfOk result (λ row. row ≡ lines_row counts) }
{
    let mut row = SafeLine::new(alloc);
    row.push_ascii("  lines     ")?;
    row.push_number(alloc, counts.lines as u64)?;
    row.push_ascii(": ")?;
    row.push_number(alloc, counts.modelled as u64)?;
    row.push_ascii(" as typed, ")?;
    row.push_number(alloc, counts.lines.saturating_sub(counts.modelled) as u64)?;
    row.push_ascii(" as observed")?;
    Ok(row)
}

/// Returns how many lines aren't told apart.
#[tactic(auto, unfolding(crate::specs::Rows::overlaps_row))]
pub(crate) fn overlaps_row(alloc: Global, counts: Counts) -> Result<SafeLine, NoMem>
    ensures { IfOk result (λ row. row ≡ overlaps_row counts) }
{
    let mut row = SafeLine::new(alloc);
    row.push_ascii("  overlaps  ")?;
    row.push_number(alloc, counts.overlapping as u64)?;
    row.push_ascii(": lines that aren't told apart")?;
    Ok(row)
}

/// Returns how many changes no recorded line made.
#[tactic(auto, unfolding(crate::specs::Rows::outside_row))]
pub(crate) fn outside_row(alloc: Global, counts: Counts) -> Result<SafeLine, NoMem>
    ensures { IfOk result (λ row. row ≡ outside_row counts) }
{
    let mut row = SafeLine::new(alloc);
    row.push_ascii("  outside   ")?;
    row.push_number(alloc, counts.outside as u64)?;
    row.push_ascii(": changes that no recorded line made")?;
    Ok(row)
}

/// Returns how many lines have no record.
#[tactic(auto, unfolding(crate::specs::Rows::missing_row))]
pub(crate) fn missing_row(alloc: Global, sessions: &[Session<'_>]) -> Result<SafeLine, NoMem>
    ensures { IfOk result (λ row. row ≡ missing_row (map session_value sessions.now)) }
{
    let pieces = missing_pieces(alloc, sessions)?;
    let mut row = SafeLine::new(alloc);
    if pieces.is_empty() {
        row.push_ascii("  missing   no line lacks a record")?;
        return Ok(row);
    }
    row.push_ascii("? missing   lines without a record: ")?;
    push_listed(&mut row, pieces.as_slice())?;
    Ok(row)
}

/// Returns in which folders it isn't seen what lines only read.
#[tactic(auto, unfolding(crate::specs::Rows::unseen_row))]
fn unseen_row(alloc: Global, unseen: &[&Path]) -> Result<SafeLine, NoMem>
    ensures { IfOk result (λ row. row ≡ unseen_row (map (λ p. p.now) unseen.now)) }
{
    let mut row = SafeLine::new(alloc);
    if unseen.is_empty() {
        row.push_ascii("  reads     seen in all folders")?;
        return Ok(row);
    }
    row.push_ascii("? reads     not seen in ")?;
    push_listed(&mut row, path_pieces(alloc, unseen)?.as_slice())?;
    row.push_ascii(": mount them with strictatime")?;
    Ok(row)
}

/// Returns in which folders it isn't seen what lines only read, if it is known how they are mounted.
#[tactic(auto, unfolding(crate::specs::Rows::reads_row))]
pub(crate) fn reads_row(alloc: Global, unseen: Option<&Vec<&Path>>) -> Result<SafeLine, NoMem>
    ensures { IfOk result (λ row. row
        ≡ reads_row (option_map (λ paths. map (λ p. p.now) paths.now.items) unseen.entry)) }
{
    if let Some(unseen) = unseen {
        return unseen_row(alloc, unseen.as_slice());
    }
    let mut row = SafeLine::new(alloc);
    row.push_ascii("? reads     it isn't known how the folders are mounted")?;
    Ok(row)
}

/// Returns which of some logins weren't recorded.
#[tactic(auto, unfolding(crate::specs::Rows::logins_row))]
pub(crate) fn logins_row(
    alloc: Global,
    given: &[Login<'_>],
    unrecorded: &[Login<'_>],
) -> Result<SafeLine, NoMem>
    ensures { IfOk result (λ row.
        row ≡ logins_row (map login_value given.now) (map login_value unrecorded.now)) }
{
    let mut row = SafeLine::new(alloc);
    if given.is_empty() {
        row.push_ascii("? logins    the list names nobody")?;
        return Ok(row);
    }
    if unrecorded.is_empty() {
        row.push_ascii("  logins    all are recorded")?;
        return Ok(row);
    }
    row.push_ascii("? logins    not recorded: ")?;
    push_listed(&mut row, login_pieces(alloc, unrecorded)?.as_slice())?;
    Ok(row)
}

/// Returns how long the case is.
#[tactic(auto, unfolding(crate::specs::Rows::case_row))]
pub(crate) fn case_row(alloc: Global, size: usize) -> Result<SafeLine, NoMem>
    ensures { IfOk result (λ row. row ≡ case_row size) }
{
    let mut row = SafeLine::new(alloc);
    row.push_ascii("  case      ")?;
    row.push_number(alloc, size as u64)?;
    row.push_ascii(" bytes")?;
    Ok(row)
}
