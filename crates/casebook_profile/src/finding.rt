//! Texts, and lines of a recording, that aren't understood.
ghost use Rattle.std.specs.Prelude.{◌≡◌, ◌++◌, [], IfOk, OnOk};
ghost use Rattle.casebook_profile.specs.Lines as Lines;
ghost use Rattle.casebook_profile.specs.UnknownLines.{scope_in, unknown_if, unknown_lines_of};
ghost use Rattle.casebook_profile.specs.inner.Scopes.{knows};

use crate::NoMem;
use crate::knowledge::Knowledge;
use crate::lines::text_obstacle;
use crate::unknown_line::UnknownLine;
use casebook_usage::Obstacle;
use retro_keep::{Noted, Recording};
use retro_tree::State;
use std::alloc::Global;

/// Appends a line, if it isn't understood.
fn push_unknown(
    alloc: Global,
    found: &mut Vec<UnknownLine>,
    knowledge: &Knowledge<'_>,
    line: &(u32, Noted),
) -> Result<(), NoMem>
    ensures { OnOk result (found.new.items ≡ found.old.items ++ unknown_if line.now.0
        (Lines.text_obstacle (record { before = knows knowledge.now line.now.1.sid; set = []; loops = [] })
        line.now.1.text)) }
{
    let noted = &line.1;
    if let Some(obstacle) = text_obstacle(alloc, knowledge, noted.sid, noted.text.as_str())? {
        found.push(UnknownLine {
            number: line.0,
            obstacle,
        })?;
    }
    Ok(())
}

/// Returns the lines of a recording that aren't understood, in order. Takes one pass over the texts
/// and the notes.
#[tactic(auto, unfolding(crate::specs::UnknownLines::unknown_lines_of))]
pub fn unknown_lines(alloc: Global, recording: &Recording) -> Result<Vec<UnknownLine>, NoMem>
    ensures { IfOk result (λ found. found.items ≡ unknown_lines_of recording.now) }
{
    let mut knowledge = Knowledge::of(alloc, recording.first());
    let mut found = Vec::new(alloc);
    for line in recording.lines() {
        push_unknown(alloc, &mut found, &knowledge, line)?;
        knowledge.learn(alloc, line.1.notes.as_slice())?;
    }
    Ok(found)
}

/// Returns why a text isn't understood that a session would run in a state, or `None` if it is.
pub fn obstacle_in(
    alloc: Global,
    state: &State,
    session: u32,
    text: &str,
) -> Result<Option<Obstacle>, NoMem>
    ensures { IfOk result (λ found.
        found ≡ Lines.text_obstacle (scope_in state.now session) text.now) }
{
    let knowledge = Knowledge::of(alloc, state);
    text_obstacle(alloc, &knowledge, session, text)
}
