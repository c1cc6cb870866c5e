//! The lines of a recording before a number, and the state that they leave.
ghost use Rattle.std.specs.Prelude.{◌≡◌, ◌≤◌, IsTrue, OnOk, drop, length, map, take};
ghost use Rattle.retro_keep.specs.Recorded.{lines_below};
ghost use Rattle.retro_keep.specs.Recording.{last_state, number_in};
ghost use Rattle.retro_keep.specs.Script.{rises_from};
ghost use Rattle.retro_keep.specs.Trim.{lines_from};

use crate::noted::Noted;
use retro_shell::apply_notes;
use retro_tree::{NoMem, State};
use std::alloc::Global;

/// Returns how many lines have numbers below a number. The lines' numbers must rise, and the first
/// other line is found by binary search.
pub(crate) fn count_before(number: u32, lines: &[(u32, Noted)]) -> usize
    requires { IsTrue (rises_from 0 (map number_in lines.now)) }
    ensures bound { result ≤ length lines.now }
    ensures before { take result lines.now ≡ lines_below number lines.now }
    ensures after { drop result lines.now ≡ lines_from number lines.now }
{
    lines.partition_point(|line| line.0 < number)
}

/// Makes the changes of lines in a state, in order. Copies only what the changes write.
pub(crate) fn apply_lines(
    alloc: Global,
    lines: &[(u32, Noted)],
    state: &mut State,
) -> Result<(), NoMem>
    ensures { OnOk result (state.new ≡ last_state lines.now state.old) }
{
    for line in lines {
        apply_notes(alloc, &line.1.notes, state)?;
    }
    Ok(())
}
