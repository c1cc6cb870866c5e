//! `cd` (XCU cd).
ghost use Rattle.std.specs.Prelude.{◌≡◌, IfOk, map, string_bytes};
ghost use Rattle.retro_local.specs.Runs.{Computes, Extends};
ghost use Rattle.retro_utils.specs.Directories.{cd, cd_home, cd_to, enter, home_in, home_not_set};
ghost use Rattle.retro_utils.specs.Operands.{at_operand};

use crate::done::Done;
use crate::operand::locate;
use crate::place::Place;
use crate::reason::{Reason, no_directory};
use retro_local::Local;
use retro_tree::{NoMem, Path, VarName, View};
use std::alloc::Global;

/// Makes a path the directory of the session. In a subshell, only tests that it is a directory.
#[tactic(auto, unfolding(crate::specs::Directories::enter))]
fn enter<V: View>(
    alloc: Global,
    place: Place,
    path: Path,
    local: &mut Local<V>,
) -> Result<Result<(), Reason>, NoMem>
    ensures means { IfOk result (λ outcome. Computes local.old local.new
        (enter place path) outcome) }
    ensures extends { Extends place.sid local.old local.new }
{
    if let Some(reason) = no_directory(local.kind_at(alloc, &path)?) {
        return Ok(Err(reason));
    }
    if !place.sub {
        local.set_cwd(alloc, place.sid, path)?;
    }
    Ok(Ok(()))
}

/// Makes the path that an operand names the directory of the session.
fn enter_operand<V: View>(
    alloc: Global,
    place: Place,
    operand: &str,
    local: &mut Local<V>,
) -> Result<Result<(), Reason>, NoMem>
    ensures means { IfOk result (λ outcome. Computes local.old local.new
        (at_operand place.sid (enter place) operand.now) outcome) }
    ensures extends { Extends place.sid local.old local.new }
{
    match locate(alloc, place.sid, operand, local)? {
        Ok(path) => Ok(enter(alloc, place, path, local)?),
        Err(reason) => Ok(Err(reason)),
    }
}

/// Changes to the directory that an operand names.
#[tactic(auto, unfolding(crate::specs::Directories::cd_to))]
fn cd_to<V: View>(
    alloc: Global,
    place: Place,
    operand: &str,
    local: &mut Local<V>,
) -> Result<Done, NoMem>
    ensures means { IfOk result (λ done. Computes local.old local.new
        (cd_to place operand.now) done) }
    ensures extends { Extends place.sid local.old local.new }
{
    let outcome = enter_operand(alloc, place, operand, local)?;
    let mut done = Done::nothing(alloc, 0);
    done.outcome("cd", operand, outcome)?;
    Ok(done)
}

/// Returns the result if HOME isn't set or is empty.
#[tactic(auto, unfolding(crate::specs::Directories::home_not_set))]
fn home_not_set(alloc: Global) -> Result<Done, NoMem>
    ensures { IfOk result (λ done. done ≡ home_not_set) }
{
    let mut done = Done::nothing(alloc, 1);
    done.err.extend(b"cd: HOME not set\n")?;
    Ok(done)
}

/// Changes to the directory that HOME names.
fn cd_home<V: View>(alloc: Global, place: Place, local: &mut Local<V>) -> Result<Done, NoMem>
    ensures means { IfOk result (λ done. Computes local.old local.new
        (λ s. cd_home place (home_in place.sid s) s) done) }
    ensures extends { Extends place.sid local.old local.new }
{
    let name = VarName::home(alloc)?;
    let Some(home) = local.var(alloc, place.sid, &name)? else {
        return Ok(home_not_set(alloc)?);
    };
    if home.as_str().is_empty() {
        return Ok(home_not_set(alloc)?);
    }
    Ok(cd_to(alloc, place, home.as_str(), local)?)
}

/// Runs `cd`: changes to the directory that the operand names, or to HOME if there is none.
#[tactic(auto, unfolding(crate::specs::Directories::cd))]
pub(crate) fn cd<V: View>(
    alloc: Global,
    place: Place,
    operands: &[String],
    local: &mut Local<V>,
) -> Result<Done, NoMem>
    ensures means { IfOk result (λ done. Computes local.old local.new
        (cd place (map string_bytes operands.now)) done) }
    ensures extends { Extends place.sid local.old local.new }
{
    match operands {
        [] => Ok(cd_home(alloc, place, local)?),
        [operand] => {
            if operand.as_str() == "-" {
                return Ok(Done::usage(alloc, "cd")?);
            }
            Ok(cd_to(alloc, place, operand, local)?)
        }
        [_, _, ..] => Ok(Done::usage(alloc, "cd")?),
    }
}
