//! Rows of plans in words.
ghost use Rattle.std.specs.Prelude.{◌≡◌, ◌++◌, IfOk, OnOk, codes};
ghost use Rattle.retro_tree.specs.declared.answer.Answer.TheVariants.{Bytes};
ghost use Rattle.casebook_words.specs.Difference.{difference_words};
ghost use Rattle.casebook_restore.specs.RowPlans.{node_found};
ghost use Rattle.casebook_restore.specs.Words.{obstacle_words, row_line, state_words};
ghost use Rattle.casebook_restore.specs.Words.{words_by};

use crate::NoMem;
use crate::attribute_words::push_mode;
use crate::obstacle_words::obstacle_text;
use crate::row_plans::node_found;
use casebook_folder::{Change, Found, Obstacle, PlannedRow, State};
use casebook_text::SafeLine;
use casebook_words::{push_difference, push_path};
use retro_tree::Answer;
use std::alloc::Global;

/// Appends the recorded and the repaired node of a change.
fn push_change(alloc: Global, line: &mut SafeLine, change: &Change) -> Result<(), NoMem>
    ensures { OnOk result (line.new
        ≡ line.old ++ difference_words (Bytes change.now.old) (Bytes change.now.new)) }
{
    let old = Answer::Bytes(change.old.copy()?);
    let new = Answer::Bytes(change.new.copy()?);
    push_difference(alloc, line, &old, &new)
}

/// Appends the recorded node of a change and what is found.
fn push_found(
    alloc: Global,
    line: &mut SafeLine,
    change: &Change,
    found: &Found,
) -> Result<(), NoMem>
    ensures { OnOk result (line.new
        ≡ line.old ++ difference_words (Bytes change.now.old) (Bytes (node_found found.now))) }
{
    let old = Answer::Bytes(change.old.copy()?);
    let found = Answer::Bytes(node_found(found)?);
    push_difference(alloc, line, &old, &found)
}

/// Appends what is in the way.
#[tactic(auto, using(crate::proofs::Obstacles::printable))]
fn push_obstacle(line: &mut SafeLine, obstacle: Obstacle) -> Result<(), NoMem>
    ensures { OnOk result (line.new ≡ line.old ++ (codes ": " ++ obstacle_words obstacle)) }
{
    line.push_ascii(": ")?;
    line.push_ascii(obstacle_text(obstacle))
}

/// Returns how a folder is to a row.
fn state_text(state: State) -> &'static str
    ensures { result.now ≡ state_words state }
{
    match state {
        State::Ready => "ready ",
        State::Done => "done ",
        State::Differs => "differs ",
        State::Blocked(_) => "blocked ",
    }
}

/// Appends what is said of a row after its path.
fn push_words(alloc: Global, line: &mut SafeLine, row: &PlannedRow) -> Result<(), NoMem>
    ensures { OnOk result (line.new ≡ line.old ++ words_by row.now.state row.now) }
{
    match row.state {
        State::Ready => {
            push_change(alloc, line, &row.change)?;
            push_mode(alloc, line, &row.before, &row.after)
        }
        State::Done => push_change(alloc, line, &row.change),
        State::Differs => push_found(alloc, line, &row.change, &row.before),
        State::Blocked(obstacle) => push_obstacle(line, obstacle),
    }
}

/// Returns a row in words: how the folder is to it, its path, and what would change or is in the
/// way.
#[tactic(auto, using(crate::proofs::Obstacles::printable_state), unfolding(crate::specs::Words::row_line))]
pub(crate) fn row_line(alloc: Global, row: &PlannedRow) -> Result<SafeLine, NoMem>
    ensures { IfOk result (λ line. line ≡ row_line row.now) }
{
    let mut line = SafeLine::new(alloc);
    line.push_ascii(state_text(row.state))?;
    push_path(alloc, &mut line, &row.change.path)?;
    push_words(alloc, &mut line, row)?;
    Ok(line)
}
