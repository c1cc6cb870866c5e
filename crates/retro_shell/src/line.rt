//! Running a line over a view, and on a state.
ghost use Rattle.std.specs.Prelude.{◌≡◌, [], IfOk, IsTrue, OnErr, OnOk, option_map};
ghost use Rattle.std.specs.FinMap as map;
ghost use Rattle.retro_tree.specs.Lawful.{IsLawful};
ghost use Rattle.retro_tree.specs.Notes.{after, Holds};
ghost use Rattle.retro_local.specs.Runs.{Computes, Extends};
ghost use Rattle.retro_syntax.specs.Lines.{line_view};
ghost use Rattle.retro_shell.specs.Line.{HasSameSessions, line, meaning};

use crate::command::run_commands;
use crate::execution::Execution;
use crate::progress::Progress;
use crate::run::Run;
use retro_syntax::{Line, Parsed};
use retro_tree::{Bytes, NoMem, State, Text, View};
use retro_utils::{Local, apply_notes};
use std::alloc::Global;

/// Executes a line. `None` stands for a text outside the grammar.
fn execute<'a, V: View>(
    alloc: Global,
    view: &'a V,
    sid: u32,
    line: Option<&Line>,
) -> Result<Execution<'a, V>, NoMem>
    ensures means { IfOk result (λ execution. Computes
        (record { start = V.state view.now; notes = [] }) execution.local
        (meaning sid (option_map (λ line. line_view line.now) line.entry))
        execution.progress.text) }
    ensures extends { IfOk result (λ execution. Extends sid
        (record { start = V.state view.now; notes = [] }) execution.local) }
{
    let mut execution = Execution {
        progress: Progress::nothing(alloc),
        local: Local::new(alloc, view),
    };
    match line {
        None => {
            execution.progress.complain("unsupported line", 2)?;
            execution.local.set_status(alloc, sid, 2)?;
        }
        Some(line) => {
            if let Some(commands) = &line.commands {
                run_commands(alloc, sid, commands, &mut execution)?;
                let status = execution.progress.status();
                execution.local.set_status(alloc, sid, status)?;
            }
        }
    }
    Ok(execution)
}

/// Runs a parsed line of a session over a view, as [`run_line`] does.
pub fn run_parsed<V: View>(alloc: Global, view: &V, sid: u32, parsed: &Parsed) -> Result<Run, NoMem>
    ensures sid { IfOk result (λ run. run.sid ≡ sid) }
    ensures text { IfOk result (λ run. run.text ≡ parsed.now) }
    ensures holds { IfOk result (λ run. Holds run.notes (V.state view.now)) }
    ensures means { IfOk result (λ run. IsLawful (V.state view.now)
        → IsTrue (map.contains_key (V.state view.now).sessions sid)
        → line sid parsed.now (V.state view.now)
        ≡ (after run.notes (V.state view.now), run.output)) }
{
    let text = Text::of(String::from_str(alloc, parsed.text())?);
    let Execution { progress, local } = execute(alloc, view, sid, parsed.line())?;
    let notes = local.into_notes(alloc)?;
    Ok(Run::of(sid, text, notes, progress.text))
}

/// Runs a line of a session over a view: executes it, and notes what it reads and changes. The
/// notes hold in the view's state.
///
/// A text outside the grammar prints `sh: unsupported line` and has status 2. A blank line reads
/// and changes nothing. The last note of every other line sets the session's status.
pub fn run_line<V: View>(alloc: Global, view: &V, sid: u32, text: &str) -> Result<Run, NoMem>
    ensures sid { IfOk result (λ run. run.sid ≡ sid) }
    ensures text { IfOk result (λ run. run.text ≡ text.now) }
    ensures holds { IfOk result (λ run. Holds run.notes (V.state view.now)) }
    ensures means { IfOk result (λ run. IsLawful (V.state view.now)
        → IsTrue (map.contains_key (V.state view.now).sessions sid)
        → line sid text.now (V.state view.now)
        ≡ (after run.notes (V.state view.now), run.output)) }
{
    let parsed = Parsed::of(alloc, String::from_str(alloc, text)?)?;
    Ok(run_parsed(alloc, view, sid, &parsed)?)
}

/// Runs a line of a session in a state, and returns the text that the terminal gets. Copies only
/// what the line changes.
#[tactic(auto, using(crate::proofs::Sessions::after_notes))]
pub fn step(alloc: Global, state: &mut State, sid: u32, text: &str) -> Result<Bytes, NoMem>
    requires lawful { IsLawful state.old }
    requires session { IsTrue (map.contains_key state.old.sessions sid) }
    ensures means { IfOk result (λ printed. (state.new, printed) ≡ line sid text.now state.old) }
    ensures lawful { OnOk result (IsLawful state.new) }
    ensures sessions { OnOk result (HasSameSessions state.old state.new) }
    ensures err { OnErr result (state.new ≡ state.old) }
{
    let run = run_line(alloc, &*state, sid, text)?;
    let (_, notes, output) = run.into_parts();
    apply_notes(alloc, &notes, state)?;
    Ok(output)
}

/// Runs a line of a session as [`step`] does, on a copy of the state. Returns the state after it,
/// and the text that the terminal gets.
pub fn play(alloc: Global, state: &State, sid: u32, text: &str) -> Result<(State, Bytes), NoMem>
    requires lawful { IsLawful state.now }
    requires session { IsTrue (map.contains_key state.now.sessions sid) }
    ensures means { IfOk result (λ after. after ≡ line sid text.now state.now) }
    ensures lawful { IfOk result (λ after. IsLawful after.0) }
    ensures sessions { IfOk result (λ after. HasSameSessions state.now after.0) }
{
    let mut copy = state.copy()?;
    let printed = step(alloc, &mut copy, sid, text)?;
    Ok((copy, printed))
}
