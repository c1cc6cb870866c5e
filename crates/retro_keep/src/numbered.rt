//! What the numbers and sessions of lines must satisfy.
ghost use Rattle.std.specs.Prelude.{◌≡◌, ℕ, IsTrue, map};
ghost use Rattle.retro_keep.specs.Edit.{is_among};
ghost use Rattle.retro_keep.specs.Recording.{number_in, sid_in};
ghost use Rattle.retro_keep.specs.Script.{have_sessions, lines_tested, number_of, rises_from};
ghost use Rattle.retro_keep.specs.Script.{sid_of};

use crate::noted::Noted;
use crate::script::{LinesFault, ScriptLine};
use retro_tree::State;

/// A line of a script or of a recording, which has a number and a session.
pub(crate) trait Numbered {
    /// The number.
    ghost number: { Self → ℕ };

    /// The session.
    ghost sid: { Self → ℕ };

    /// Returns the line's number.
    fn number(&self) -> u32
        ensures { result ≡ number self.now };

    /// Returns the session that runs the line.
    fn sid(&self) -> u32
        ensures { result ≡ sid self.now };
}

impl Numbered for ScriptLine {
    ghost number = { number_of };

    ghost sid = { sid_of };

    fn number(&self) -> u32 {
        self.number
    }

    fn sid(&self) -> u32 {
        self.sid
    }
}

impl Numbered for (u32, Noted) {
    ghost number = { number_in };

    ghost sid = { sid_in };

    fn number(&self) -> u32 {
        self.0
    }

    fn sid(&self) -> u32 {
        self.1.sid
    }
}

/// Returns whether line numbers are at least 1 and rise.
fn are_rising<L: Numbered>(lines: &[L]) -> bool
    ensures { result ≡ rises_from 0 (map L.number lines.now) }
{
    let mut last = 0;
    for line in lines {
        let number = line.number();
        if number <= last {
            return false;
        }
        last = number;
    }
    true
}

/// Returns whether each line's session exists in a state.
fn have_sessions<L: Numbered>(state: &State, lines: &[L]) -> bool
    ensures { result ≡ have_sessions state.now (map L.sid lines.now) }
{
    for line in lines {
        if !state.has_session(line.sid()) {
            return false;
        }
    }
    true
}

/// Returns `Ok` if line numbers are at least 1 and rise, and each line's session exists in the
/// first state. The numbers are tested first.
pub(crate) fn test_lines<L: Numbered>(first: &State, lines: &[L]) -> Result<(), LinesFault>
    ensures { result ≡ lines_tested first.now (map L.number lines.now) (map L.sid lines.now) }
{
    if !are_rising(lines) {
        return Err(LinesFault::NumbersNotRising);
    }
    if !have_sessions(first, lines) {
        return Err(LinesFault::UnknownSession);
    }
    Ok(())
}

/// Returns whether a line has a number. The lines' numbers must rise, and the number is found by
/// binary search.
pub(crate) fn has_number<L: Numbered>(lines: &[L], number: u32) -> bool
    requires { IsTrue (rises_from 0 (map L.number lines.now)) }
    ensures { result ≡ is_among (map L.number lines.now) number }
{
    lines
        .binary_search_by_key(
            &number,
            |line: &L| -> u32
                ensures { result ≡ L.number line.now }
            { line.number() },
        )
        .is_ok()
}
