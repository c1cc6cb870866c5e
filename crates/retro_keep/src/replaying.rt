//! Runs the lines of a script one by one.
ghost use Rattle.std.specs.Prelude.{◌≡◌, IfOk, IsTrue, map};
ghost use Rattle.retro_keep.specs.Runs.{outcome};
ghost use Rattle.retro_keep.specs.Script.{have_sessions, sid_of};
ghost use Rattle.retro_tree.specs.Lawful.{IsLawful};

use crate::script::{Script, ScriptLine};
use retro_shell::step;
use retro_tree::{Bytes, NoMem, State};
use std::alloc::Global;

/// Runs lines one by one, each in the state that the line before it left. Returns the last state,
/// and each line's number with what it printed.
fn run_lines(
    alloc: Global,
    first: State,
    lines: &[ScriptLine],
) -> Result<(State, Vec<(u32, Bytes)>), NoMem>
    requires lawful { IsLawful first }
    requires sessions { IsTrue (have_sessions first (map sid_of lines.now)) }
    ensures { IfOk result (λ run. (run.0, run.1.items) ≡ outcome lines.now first) }
{
    let mut state = first;
    let mut outputs = Vec::new(alloc);
    for line in lines {
        let text = step(alloc, &mut state, line.sid, line.text.as_str())?;
        outputs.push((line.number, text))?;
    }
    Ok((state, outputs))
}

/// Runs the lines of a script one by one. Returns the last state, and each line's number with what
/// it printed.
pub fn replay(alloc: Global, script: Script) -> Result<(State, Vec<(u32, Bytes)>), NoMem>
    ensures { IfOk result (λ run. (run.0, run.1.items) ≡ outcome script.lines script.first) }
{
    let (first, lines) = script.into_parts();
    run_lines(alloc, first, &lines)
}
