//! A recorded line.
ghost use Rattle.std.specs.Prelude.{◌≡◌, IfOk};
ghost use Rattle.retro_shell.specs.Runs.{IsRun};
ghost use Rattle.retro_keep.specs.Recording.{noted_of};

use retro_shell::Run;
use retro_tree::{Bytes, NoMem, Notes, Text};

/// A line of a session, with the notes of what it read and changed, and what it printed.
///
/// This is plain data: the notes and the output need not be those of the line.
#[derive(Drop)]
pub struct Noted {
    /// The session that runs the line.
    pub sid: u32,
    /// The line.
    pub text: Text,
    /// What the line read and changed, in order.
    pub notes: Notes,
    /// What the line printed.
    pub output: Bytes,
}

impl Noted {
    /// Returns what a recording keeps of a run, whose notes certify its line. Takes no memory.
    pub fn of(run: Run) -> Noted
        ensures value { result ≡ noted_of run }
        ensures run { IsRun run }
    {
        let sid = run.sid();
        let (text, notes, output) = run.into_parts();
        Noted {
            sid,
            text,
            notes,
            output,
        }
    }

    /// Returns a copy, which shares the notes.
    pub fn copy(&self) -> Result<Noted, NoMem>
        ensures { IfOk result (λ copy. copy ≡ self.now) }
    {
        Ok(Noted {
            sid: self.sid,
            text: self.text.copy()?,
            notes: self.notes.copy()?,
            output: self.output.copy()?,
        })
    }
}
