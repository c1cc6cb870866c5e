//! How deep `if` and `for` nest. Each function with a `room` tests whether at most so many
//! compound commands are nested in each other.

ghost use Rattle.std.specs.Prelude.{◌≡◌, nat_le, true, false};
ghost use Rattle.retro_syntax.specs.Depth as Depth;
ghost use Rattle.retro_syntax.specs.inner.Fits as Fits;
ghost use Rattle.retro_syntax.specs.View.{commands_of, view};

use crate::tree::{AndOr, Command, Commands, Conditional, Connector, Pipeline};

/// Returns whether these pipelines nest at most `room` deep.
#[cycle(depth)]
fn pipelines_fit(pipelines: &[(Pipeline<Command>, Connector)], room: u8) -> bool
    ensures { result ≡ Fits.pipelines_fit pipelines.now room }
{
    let mut rest = pipelines;
    while let [first, more @ ..] = rest {
        if !command_fits(&first.0.command, room) {
            return false;
        }
        rest = more;
    }
    true
}

/// Returns whether an and-or list nests at most `room` deep.
#[cycle(depth)]
fn and_or_fits(and_or: &AndOr<Command>, room: u8) -> bool
    ensures { result ≡ Fits.and_or_fits and_or.now room }
{
    pipelines_fit(&and_or.before, room) && command_fits(&and_or.last.command, room)
}

/// Returns whether these and-or lists nest at most `room` deep.
#[cycle(depth)]
fn and_ors_fit(list: &[AndOr<Command>], room: u8) -> bool
    ensures { result ≡ Fits.and_ors_fit list.now room }
{
    let mut rest = list;
    while let [first, more @ ..] = rest {
        if !and_or_fits(first, room) {
            return false;
        }
        rest = more;
    }
    true
}

/// Returns whether a list nests at most `room` deep.
#[cycle(depth)]
fn list_fits(list: &Commands<Command>, room: u8) -> bool
    ensures { result ≡ Fits.list_fits list.now room }
{
    and_ors_fit(&list.before, room) && and_or_fits(&list.last, room)
}

/// Returns whether the conditions of an `if` and their lists nest at most `room` deep.
#[cycle(depth)]
fn arms_fit(arms: &[(Commands<Command>, Commands<Command>)], room: u8) -> bool
    ensures { result ≡ Fits.arms_fit arms.now room }
{
    let mut rest = arms;
    while let [first, more @ ..] = rest {
        if !(list_fits(&first.0, room) && list_fits(&first.1, room)) {
            return false;
        }
        rest = more;
    }
    true
}

/// Returns whether the lists of an `if`, except the one after `else`, nest at most `room` deep.
#[cycle(depth)]
fn conditional_fits(parts: &Conditional<Command>, room: u8) -> bool
    ensures { result ≡ Fits.conditional_fits parts.now room }
{
    arms_fit(&parts.before, room)
        && list_fits(&parts.condition, room)
        && list_fits(&parts.consequence, room)
}

/// Returns whether a command nests at most `room` deep. An `if` or a `for` is one deeper than its
/// lists.
#[cycle(depth)]
fn command_fits(command: &Command, room: u8) -> bool
    ensures { result ≡ Fits.command_fits command.now room }
{
    match command {
        Command::Pipe(_) => true,
        Command::If(parts) => {
            if room == 0 {
                return false;
            }
            conditional_fits(parts, room - 1)
        }
        Command::IfElse(parts, alternative) => {
            if room == 0 {
                return false;
            }
            if !conditional_fits(parts, room - 1) {
                return false;
            }
            list_fits(alternative, room - 1)
        }
        Command::For(parts) => {
            if room == 0 {
                return false;
            }
            list_fits(&parts.body, room - 1)
        }
    }
}

/// The greatest depth to which `if` and `for` may nest in a line.
pub const DEEPEST_NESTING: u8 = 32;

/// Returns whether `if` and `for` nest at most [`DEEPEST_NESTING`] deep in a list.
pub fn is_shallow(list: &Commands<Command>) -> bool
    ensures { result ≡ nat_le (Depth.depth (commands_of view list.now)) Depth.deepest_nesting }
{
    list_fits(list, DEEPEST_NESTING)
}
