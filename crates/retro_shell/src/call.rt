//! The call of the utility that a command's fields name (XCU 2.9.1.1).
ghost use Rattle.std.specs.Prelude.{◌≡◌, ◌++◌, IfOk, codes, map, string_bytes};
ghost use Rattle.retro_local.specs.Runs.{Computes, Extends};
ghost use Rattle.retro_shell.specs.Outcomes as Outcomes;
ghost use Rattle.retro_shell.specs.Simple.{call};

use crate::diagnostics::refusal;
use retro_tree::{NoMem, View};
use retro_utils::{Done, Input, Local, Place, utility};
use std::alloc::Global;

/// Returns the result of a command whose name is not that of a utility.
fn not_found(alloc: Global, name: &str) -> Result<Done, NoMem>
    ensures { IfOk result (λ done.
        done ≡ Outcomes.refusal (name.now ++ codes ": not found") 127) }
{
    let mut message = String::from_str(alloc, name)?;
    message.push_str(": not found")?;
    Ok(refusal(alloc, &message, 127)?)
}

/// Calls the utility that the first field names with the other fields.
#[tactic(auto, unfolding(crate::specs::Simple::call))]
pub(crate) fn call<V: View>(
    alloc: Global,
    place: Place,
    fields: &[String],
    input: Input,
    local: &mut Local<V>,
) -> Result<Done, NoMem>
    ensures means { IfOk result (λ done. Computes local.old local.new
        (call place (map string_bytes fields.now) input) done) }
    ensures extends { Extends place.sid local.old local.new }
{
    let [name, operands @ ..] = fields else {
        return Ok(Done::nothing(alloc, 0));
    };
    match utility(alloc, name, operands, input, local, place)? {
        Some(done) => Ok(done),
        None => Ok(not_found(alloc, name)?),
    }
}
