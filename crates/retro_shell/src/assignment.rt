//! Assignments (XCU 2.9.1).
ghost use Rattle.std.specs.Prelude.{◌≡◌, ◌≤◌, IfOk, OnOk, length, map};
ghost use Rattle.retro_local.specs.Runs.{Computes, Extends, Transforms};
ghost use Rattle.retro_syntax.specs.View.{assignment_view};
ghost use Rattle.retro_tree.specs.Session.{value_limit};
ghost use Rattle.retro_shell.specs.Simple.{assign, assigned_in};

use crate::context::Context;
use crate::diagnostics::refusal;
use crate::expansion::expand_value;
use retro_syntax::tree::Assignment;
use retro_tree::{NoMem, Text, VALUE_LIMIT, VarName, View};
use retro_utils::{Done, Local, Place};
use std::alloc::Global;

/// Sets a variable to a value within the limit. Changes nothing in a subshell.
fn set<V: View>(
    alloc: Global,
    place: Place,
    name: &VarName,
    value: Text,
    local: &mut Local<V>,
) -> Result<(), NoMem>
    requires limit { length value ≤ value_limit }
    ensures means { OnOk result (Transforms local.old local.new
        (assigned_in place name.now value)) }
    ensures extends { Extends place.sid local.old local.new }
{
    if place.sub {
        return Ok(());
    }
    local.set_var(alloc, place.sid, name.copy()?, value)
}

/// Makes assignments from left to right, up to the first value over the limit.
pub(crate) fn assign<V: View>(
    alloc: Global,
    context: Context,
    assignments: &[Assignment],
    local: &mut Local<V>,
) -> Result<Done, NoMem>
    ensures means { IfOk result (λ done. Computes local.old local.new
        (assign context (map assignment_view assignments.now)) done) }
    ensures extends { Extends context.place.sid local.old local.new }
{
    for assignment in assignments {
        let value = expand_value(alloc, context, assignment, local)?;
        if value.bytes().len() > VALUE_LIMIT {
            return Ok(refusal(alloc, "value too long", 1)?);
        }
        set(alloc, context.place, &assignment.name, value, local)?;
    }
    Ok(Done::nothing(alloc, 0))
}
