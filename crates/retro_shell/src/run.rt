//! Runs: lines with the notes and the output of their execution.
ghost use Rattle.std.specs.Prelude.{◌≡◌};
ghost use Rattle.retro_shell.specs.Runs.{IsRun};

use retro_tree::{Bytes, Notes, Text};
use std::marker::Model;

/// A line of a session, with the notes and the output of its execution.
///
/// The type guarantees that the notes certify the line. In every lawful state that has the session
/// and in which the notes hold, each noted change is lawful where it is made, and the line makes
/// the noted changes and prints this output. The notes name no session but the line's. Each method
/// that reads a part states this guarantee.
#[derive(Drop)]
pub struct Run {
    sid: u32,
    text: Text,
    notes: Notes,
    output: Bytes,
}

impl Model for Run {
    ghost use Rattle.retro_shell.specs.Runs.{IsRun, RunValue};
    ghost use Rattle.retro_shell.specs.inner.RunCode.{coded_run};

    ghost Value = { RunValue };

    ghost coded = { coded_run };

    ghost view = { λ r. record {
      sid = r.sid;
      text = r.text;
      notes = r.notes;
      output = r.output;
    } };

    ghost invariant = { λ r. IsRun (record {
      sid = r.sid;
      text = r.text;
      notes = r.notes;
      output = r.output;
    }) };
}

impl Run {
    /// Makes a run of a line's execution. Takes no memory.
    pub(crate) fn of(sid: u32, text: Text, notes: Notes, output: Bytes) -> Run
        requires { IsRun (record { sid = sid; text = text; notes = notes; output = output }) }
        ensures { result
            ≡ record { sid = sid; text = text; notes = notes; output = output } }
    {
        Run {
            sid,
            text,
            notes,
            output,
        }
    }

    /// Returns the number of the session.
    pub fn sid(&self) -> u32
        ensures value { result ≡ self.now.sid }
        ensures run { IsRun self.now }
    {
        self.sid
    }

    /// Returns the line.
    pub fn text(&self) -> &str
        ensures value { result.now ≡ self.now.text }
        ensures run { IsRun self.now }
    {
        self.text.as_str()
    }

    /// Returns what the execution read and changed.
    pub fn notes(&self) -> &Notes
        ensures value { result.now ≡ self.now.notes }
        ensures run { IsRun self.now }
    {
        &self.notes
    }

    /// Returns what the line printed.
    pub fn output(&self) -> &Bytes
        ensures value { result.now ≡ self.now.output }
        ensures run { IsRun self.now }
    {
        &self.output
    }

    /// Returns the line, the notes and the output. Takes no memory.
    pub fn into_parts(self) -> (Text, Notes, Bytes)
        ensures text { result.0 ≡ self.text }
        ensures notes { result.1 ≡ self.notes }
        ensures output { result.2 ≡ self.output }
        ensures run { IsRun self }
    {
        let Run {
            sid: _,
            text,
            notes,
            output,
        } = self;
        (text, notes, output)
    }
}
