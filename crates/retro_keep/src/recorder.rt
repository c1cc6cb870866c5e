//! Runs the lines of a script one by one, and records them.
ghost use Rattle.std.specs.Prelude.{◌≡◌, ◌≤◌, ◌+◌, ◌++◌, ◌∷◌, [], IfOk, IsTrue, List, OnOk, drop};
ghost use Rattle.std.specs.Prelude.{length, map, take};
ghost use Rattle.std.specs.FinMap as map_of;
ghost use Rattle.retro_tree.specs.Lawful.{IsLawful};
ghost use Rattle.retro_tree.specs.declared.state.State.{State as StateValue};
ghost use Rattle.retro_keep.specs.Recording.{IsRecordingOf, recorded_outcome};
ghost use Rattle.retro_keep.specs.inner.Recorder.{HasRecorded, text_of};
ghost use Rattle.retro_keep.specs.Runs.{outcome};
ghost use Rattle.retro_keep.specs.declared.script.ScriptLine.{ScriptLine as ScriptLineValue};

use crate::noted::Noted;
use crate::recording::Recording;
use crate::script::{Script, ScriptLine};
use rayon::prelude::*;
use retro_shell::{apply_notes, run_parsed};
use retro_syntax::Parsed;
use retro_tree::{NoMem, State};
use std::alloc::Global;
use std::thread::Threads;

/// The number of lines that are parsed before they are run: enough to keep all threads busy. The
/// trees of all lines of a long script would take more memory than its recording.
const PARSED_AT_ONCE: usize = 4096;

/// The lines that were run so far, and the state after them.
#[derive(Drop)]
struct Recorder {
    lines: Vec<(u32, Noted)>,
    state: State,
}

impl Recorder {
    /// Returns the recorder of a script before its first line.
    fn new(alloc: Global, script: &Script) -> Result<Recorder, NoMem>
        ensures { IfOk result (λ recorder.
            HasRecorded [] script.now.first recorder.lines.items recorder.state) }
    {
        Ok(Recorder {
            lines: Vec::with_capacity(alloc, script.lines().len())?,
            state: script.first().copy()?,
        })
    }

    /// Runs a line and records it. `parsed` is the line's parsed text.
    fn record(&mut self, alloc: Global, line: &ScriptLine, parsed: &Parsed) -> Result<(), NoMem>
        requires text { parsed.now ≡ line.now.text }
        requires lawful { IsLawful self.old.state }
        requires session { IsTrue (map_of.contains_key self.old.state.sessions line.now.sid) }
        ensures { OnOk result ((first : StateValue) (done : List ScriptLineValue)
            → HasRecorded done first self.old.lines.items self.old.state
            → HasRecorded (done ++ line.now ∷ []) first self.new.lines.items self.new.state) }
    {
        let run = run_parsed(alloc, &self.state, line.sid, parsed)?;
        let noted = Noted::of(run);
        apply_notes(alloc, &noted.notes, &mut self.state)?;
        self.lines.push((line.number, noted))?;
        Ok(())
    }

    /// Runs the lines of a script that begin at index `start`, as many as `parsed` has, and
    /// records them. `parsed` has the parsed texts of these lines, in order.
    fn record_parsed(
        &mut self,
        alloc: Global,
        script: &Script,
        start: usize,
        parsed: &[Parsed],
    ) -> Result<(), NoMem>
        requires texts { parsed.now
            ≡ map text_of (take (length parsed.now) (drop start script.now.lines)) }
        requires within { start + length parsed.now ≤ length script.now.lines }
        requires recorded { HasRecorded (take start script.now.lines) script.now.first
            self.old.lines.items self.old.state }
        ensures { OnOk result (HasRecorded (take (start + length parsed.now) script.now.lines)
            script.now.first self.new.lines.items self.new.state) }
    {
        let lines = script.lines();
        for (index, parsed) in parsed.iter().enumerate() {
            self.record(alloc, &lines[start + index], parsed)?;
        }
        Ok(())
    }

    /// Returns the recording of a script whose lines are all recorded.
    fn finish(self, script: &Script) -> Result<Recording, NoMem>
        requires { HasRecorded script.now.lines script.now.first self.lines.items self.state }
        ensures recording { IfOk result (λ r. IsRecordingOf script.now r) }
        ensures outcome { IfOk result (λ r.
            outcome script.now.lines script.now.first ≡ recorded_outcome r) }
        ensures begins { IfOk result (λ r. r.from ≡ 1) }
    {
        let first = script.first().copy()?;
        let Recorder { lines, state } = self;
        Ok(Recording::of_well_formed(first, 1, lines, state))
    }
}

/// Parses the texts of lines in parallel. Returns them in the order of the lines.
fn parse_lines<T: Threads + Sync>(
    rt: &T,
    alloc: Global,
    lines: &[ScriptLine],
) -> Result<Vec<Parsed>, NoMem>
    ensures { IfOk result (λ parsed. parsed.items ≡ map text_of lines.now) }
{
    lines
        .par_iter()
        .with_min_len(1)
        .map(
            |line: &ScriptLine| -> Result<Parsed, NoMem>
                ensures { IfOk result (λ parsed. parsed ≡ line.now.text) }
            { parse_line(alloc, line) },
        )
        .collect::<Result<Vec<Parsed>, NoMem>>(rt, alloc)?
}

/// Parses the text of a line.
fn parse_line(alloc: Global, line: &ScriptLine) -> Result<Parsed, NoMem>
    ensures { IfOk result (λ parsed. parsed ≡ line.now.text) }
{
    Parsed::of(alloc, String::from_str(alloc, line.text.as_str())?)
}

/// Returns the recording of a script, which begins at line 1. The lines are parsed in parallel, up
/// to 4096 at a time, and run one by one in order.
pub fn keep<T: Threads + Sync>(rt: &T, alloc: Global, script: &Script) -> Result<Recording, NoMem>
    ensures recording { IfOk result (λ r. IsRecordingOf script.now r) }
    ensures outcome { IfOk result (λ r.
        outcome script.now.lines script.now.first ≡ recorded_outcome r) }
    ensures begins { IfOk result (λ r. r.from ≡ 1) }
{
    let lines = script.lines();
    let mut recorder = Recorder::new(alloc, script)?;
    let mut start = 0;
    while start < lines.len() {
        let count = (lines.len() - start).min(PARSED_AT_ONCE);
        let parsed = parse_lines(rt, alloc, &lines[start..start + count])?;
        recorder.record_parsed(alloc, script, start, &parsed)?;
        start += count;
    }
    recorder.finish(script)
}

/// Returns the recording of a script, as [`keep`] does, on one thread: each line is parsed and run
/// before the next.
pub fn keep_alone(alloc: Global, script: &Script) -> Result<Recording, NoMem>
    ensures recording { IfOk result (λ r. IsRecordingOf script.now r) }
    ensures outcome { IfOk result (λ r.
        outcome script.now.lines script.now.first ≡ recorded_outcome r) }
    ensures begins { IfOk result (λ r. r.from ≡ 1) }
{
    let lines = script.lines();
    let mut recorder = Recorder::new(alloc, script)?;
    for line in lines {
        let parsed = parse_line(alloc, line)?;
        recorder.record(alloc, line, &parsed)?;
    }
    recorder.finish(script)
}
