//! Tells lines, one after the other.
ghost use Rattle.std.specs.Prelude.{◌≡◌, IfErr, IfOk, IsTrue, OnOk, filter};
ghost use Rattle.std.specs.FinMap as finmap;
ghost use Rattle.retro_tree.specs.Lawful.{IsLawful};
ghost use Rattle.retro_shell.specs.Line.{HasSameSessions};
ghost use Rattle.casebook_needs.specs.Needs.{needs_of};
ghost use Rattle.casebook_explain.specs.Faults.{IsFaultAt, IsTellFault};
ghost use Rattle.casebook_explain.specs.Places.{shell_path};
ghost use Rattle.casebook_explain.specs.Shelves.{with_shelves};
ghost use Rattle.casebook_explain.specs.Told.{AreTold, IsTold, asks_file, needs_left, noted_line};
ghost use Rattle.casebook_explain.specs.inner.Sound.{IsSoundLine, after_runs};
ghost use Rattle.casebook_explain.specs.inner.LineFaults.{line_fault};

use crate::NoMem;
use crate::done::done_by;
use crate::places::shell_path;
use crate::seen_line::SeenLine;
use crate::shelves::with_shelves;
use crate::tell_fault::{LINE_LIMIT, LineFault, TellFault};
use crate::told::{Told, ToldLine};
use casebook_needs::{Need, ObservedLine, needs_of};
use casebook_stand_in::{ExplainError, explain};
use retro_tree::{Ask, State};
use std::alloc::Global;

/// Returns what a line depends on if it isn't modelled, by the state before it.
fn needs_seen(alloc: Global, state: &State, line: &SeenLine) -> Result<Vec<Need>, NoMem>
    ensures { IfOk result (λ needs. needs.items ≡ needs_of state.now (noted_line state.now line.now)) }
{
    let session = line.effect.sid();
    let directory = state.cwd(alloc, session)?;
    let effects = done_by(alloc, state, &line.effect)?;
    let shell = shell_path(alloc, session)?;
    let shell = Some(&shell);
    let observed = ObservedLine {
        text: line.text.as_slice(),
        session,
        directory: &directory,
        read: line.read.as_slice(),
        listed: line.listed.as_slice(),
        effects: effects.as_slice(),
        shell,
    };
    needs_of(alloc, state, &observed)
}

/// Returns those needs that are what the shell's file of a session holds.
fn needs_of_shell(alloc: Global, session: u32, needs: Vec<Need>) -> Result<Vec<Need>, NoMem>
    ensures { IfOk result (λ of_file.
        of_file.items ≡ filter (λ need. asks_file (shell_path session) need.ask) needs.items) }
{
    let shell = shell_path(alloc, session)?;
    let mut of_file = Vec::new(alloc);
    for need in needs {
        let asks = match &need.ask {
            Ask::Bytes(path) => *path == shell,
            _ => false,
        };
        if asks {
            of_file.push(need)?;
        }
    }
    Ok(of_file)
}

/// Returns the needs of a line, by those that it has if it isn't modelled.
fn needs_left(
    alloc: Global,
    is_modelled: bool,
    session: u32,
    needs: Vec<Need>,
) -> Result<Vec<Need>, NoMem>
    ensures { IfOk result (λ left. left.items ≡ needs_left is_modelled session needs.items) }
{
    if is_modelled {
        needs_of_shell(alloc, session, needs)
    } else {
        Ok(needs)
    }
}

/// Returns why a line can't be told.
fn line_fault(place: u32, error: ExplainError) -> TellFault
    ensures { result ≡ line_fault place error }
{
    match error {
        ExplainError::NoMem => TellFault::NoMem,
        ExplainError::Unwritten(cell) => TellFault::Line(place, LineFault::Unwritten(cell)),
        ExplainError::Unexplained(cell) => TellFault::Line(place, LineFault::Unexplained(cell)),
    }
}

/// Tells a line: changes the state as the line was seen to change it.
fn tell_line(
    alloc: Global,
    state: &mut State,
    place: u32,
    line: SeenLine,
) -> Result<ToldLine, TellFault>
    requires lawful { IsLawful state.old }
    requires session { IsTrue (finmap.contains_key state.old.sessions line.effect.sid) }
    ensures told { IfOk result (λ told. IsTold line told state.old) }
    ensures sound { IfOk result (λ told. IsSoundLine told state.old) }
    ensures state { IfOk result (λ told. state.new ≡ after_runs told.runs.items state.old) }
    ensures lawful { OnOk result (IsLawful state.new) }
    ensures sessions { OnOk result (HasSameSessions state.old state.new) }
    ensures fault { IfErr result (IsFaultAt place line state.old) }
{
    let needs = needs_seen(alloc, &*state, &line)?;
    let session = line.effect.sid();
    let SeenLine { typed, effect, .. } = line;
    let typed = match &typed {
        Some(text) => Some(text.as_str()),
        None => None,
    };
    match explain(alloc, state, place, typed, effect) {
        Ok(explained) => Ok(ToldLine {
            session,
            is_modelled: explained.is_modelled,
            needs: needs_left(alloc, explained.is_modelled, session, needs)?,
            runs: explained.runs,
        }),
        Err(error) => Err(line_fault(place, error)),
    }
}

/// Tells the lines that were seen from a state on.
///
/// # Errors
///
/// Returns `TellFault::LawlessState` if the state isn't lawful with the shelves of the lines, and
/// otherwise the fault of the first line that can't be told.
pub fn tell_lines(alloc: Global, first: &State, lines: Vec<SeenLine>) -> Result<Told, TellFault>
    ensures first { IfOk result (λ told.
        told.first ≡ with_shelves 1 lines.items first.now first.now) }
    ensures told { IfOk result (λ told. AreTold lines.items told.lines told.first) }
    ensures fault { IfErr result
        (IsTellFault (with_shelves 1 lines.items first.now first.now) lines.items) }
{
    if lines.len() >= LINE_LIMIT {
        return Err(TellFault::TooManyLines);
    }
    let mut first = with_shelves(alloc, first, lines.as_slice())?;
    if !first.validate(alloc)? {
        return Err(TellFault::LawlessState);
    }
    let mut state = first.copy()?;
    let mut told = Vec::with_capacity(alloc, lines.len())?;
    let mut place = 0_u32;
    for line in lines {
        place += 1;
        if !first.has_session(line.effect.sid()) {
            return Err(TellFault::Line(place, LineFault::UnknownSession));
        }
        told.push(tell_line(alloc, &mut state, place, line)?)?;
    }
    Ok(Told::of(first, told, state))
}
