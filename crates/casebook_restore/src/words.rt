//! Plans in words.
ghost use Rattle.std.specs.Prelude.{◌≡◌, ◌++◌, IfOk, IsTrue, OnOk, count_by, decimal, map};
ghost use Rattle.std.specs.List.{list_all};
ghost use Rattle.casebook_text.specs.SafeText.{is_printable};
ghost use Rattle.casebook_folder.specs.Plans.{is_ready_row};
ghost use Rattle.casebook_restore.specs.Words.{count_blocked, end_line, head_line, is_blocked_row};
ghost use Rattle.casebook_restore.specs.Words.{is_differing_row, is_done_row, plan_lines, row_line};
ghost use Rattle.casebook_restore.specs.Words.{unkept_line};

use crate::NoMem;
use crate::row_words::row_line;
use crate::task::{RestorePlan, UnkeptPath};
use casebook_folder::{PlannedRow, State};
use casebook_text::SafeLine;
use casebook_words::{push_answer, push_path};
use retro_tree::Answer;
use std::alloc::Global;

/// Appends what is counted, and how many there are.
fn push_count(alloc: Global, line: &mut SafeLine, what: &str, count: usize) -> Result<(), NoMem>
    requires { IsTrue (list_all is_printable what.now) }
    ensures { OnOk result (line.new ≡ line.old ++ (what.now ++ decimal count)) }
{
    line.push_ascii(what)?;
    line.push_number(alloc, count as u64)
}

/// Returns how many rows the folder is ready for.
fn count_ready(rows: &[PlannedRow]) -> usize
    ensures { result ≡ count_by is_ready_row rows.now }
{
    rows.iter().filter(|row| row.state.is_ready()).count()
}

/// Returns how many rows the folder is done with.
fn count_done(rows: &[PlannedRow]) -> usize
    ensures { result ≡ count_by is_done_row rows.now }
{
    rows.iter().filter(|row| row.state.is_done()).count()
}

/// Returns for how many rows the folder holds something else.
fn count_differing(rows: &[PlannedRow]) -> usize
    ensures { result ≡ count_by is_differing_row rows.now }
{
    rows.iter()
        .filter(|row| matches!(row.state, State::Differs))
        .count()
}

/// Returns how many rows have something in their way.
fn count_blocked_rows(rows: &[PlannedRow]) -> usize
    ensures { result ≡ count_by is_blocked_row rows.now }
{
    rows.iter()
        .filter(|row| matches!(row.state, State::Blocked(_)))
        .count()
}

/// Returns how many paths have something in their way, or had what isn't kept.
#[tactic(auto, unfolding(crate::specs::Words::count_blocked))]
fn count_blocked(plan: &RestorePlan) -> usize
    ensures { result ≡ count_blocked plan.now }
{
    count_blocked_rows(plan.rows.as_slice()) + plan.unkept.len()
}

/// Returns how many paths are in each state, outside of the folder, and not chosen.
#[tactic(auto, unfolding(crate::specs::Words::head_line))]
fn head_line(alloc: Global, plan: &RestorePlan) -> Result<SafeLine, NoMem>
    ensures { IfOk result (λ line. line ≡ head_line plan.now) }
{
    let rows = plan.rows.as_slice();
    let mut line = SafeLine::new(alloc);
    push_count(alloc, &mut line, "ready ", count_ready(rows))?;
    push_count(alloc, &mut line, ", done ", count_done(rows))?;
    push_count(alloc, &mut line, ", differs ", count_differing(rows))?;
    push_count(alloc, &mut line, ", blocked ", count_blocked(plan))?;
    push_count(alloc, &mut line, ", outside the folder ", plan.outside)?;
    push_count(alloc, &mut line, ", not chosen ", plan.left_out)?;
    Ok(line)
}

/// Returns how to read the rows.
fn end_line(alloc: Global) -> Result<SafeLine, NoMem>
    ensures { IfOk result (λ line. line ≡ end_line) }
{
    let mut line = SafeLine::new(alloc);
    line.push_ascii(
        "Paths are shown as recorded / as repaired, and where the folder differs as recorded / as \
         in the folder.",
    )?;
    Ok(line)
}

/// Appends a line for each row.
fn push_rows(alloc: Global, lines: &mut Vec<SafeLine>, rows: &[PlannedRow]) -> Result<(), NoMem>
    ensures { OnOk result (lines.new.items ≡ lines.old.items ++ map row_line rows.now) }
{
    for row in rows {
        lines.push(row_line(alloc, row)?)?;
    }
    Ok(())
}

/// Returns a path that can't be restored, with what was there.
#[tactic(auto, unfolding(crate::specs::Words::unkept_line))]
fn unkept_line(alloc: Global, unkept: &UnkeptPath) -> Result<SafeLine, NoMem>
    ensures { IfOk result (λ line. line ≡ unkept_line unkept.now) }
{
    let mut line = SafeLine::new(alloc);
    line.push_ascii("blocked ")?;
    push_path(alloc, &mut line, &unkept.path)?;
    line.push_ascii(": ")?;
    push_answer(alloc, &mut line, &Answer::Bytes(unkept.node.copy()?))?;
    Ok(line)
}

/// Appends a line for each path that can't be restored.
fn push_unkept(alloc: Global, lines: &mut Vec<SafeLine>, unkept: &[UnkeptPath]) -> Result<(), NoMem>
    ensures { OnOk result (lines.new.items ≡ lines.old.items ++ map unkept_line unkept.now) }
{
    for one in unkept {
        lines.push(unkept_line(alloc, one)?)?;
    }
    Ok(())
}

/// Returns a plan in lines: how many paths are in which state, each path with what would change
/// there or what is in the way, each that can't be restored, and how to read that.
#[tactic(auto, unfolding(crate::specs::Words::plan_lines))]
pub fn plan_lines(alloc: Global, plan: &RestorePlan) -> Result<Vec<SafeLine>, NoMem>
    ensures { IfOk result (λ lines. lines.items ≡ plan_lines plan.now) }
{
    let mut lines = Vec::new(alloc);
    lines.push(head_line(alloc, plan)?)?;
    push_rows(alloc, &mut lines, plan.rows.as_slice())?;
    push_unkept(alloc, &mut lines, plan.unkept.as_slice())?;
    lines.push(end_line(alloc)?)?;
    Ok(lines)
}
