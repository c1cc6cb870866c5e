//! `test` and `[` (XCU test).
ghost use Rattle.std.specs.Prelude.{◌≡◌, IfOk, codes, map, string_bytes};
ghost use Rattle.retro_local.specs.Runs.{Computes, Extends};
ghost use Rattle.retro_text.specs.Condition.{condition_view};
ghost use Rattle.retro_utils.specs.Conditions.{bracket_call, condition_call, condition_holds};

use crate::done::Done;
use crate::path_test::operand_passes;
use retro_local::Local;
use retro_text::{Condition, before_bracket};
use retro_tree::{NoMem, View};
use std::alloc::Global;

/// Returns whether a condition holds.
fn condition_holds<V: View>(
    alloc: Global,
    sid: u32,
    condition: Condition,
    local: &mut Local<V>,
) -> Result<bool, NoMem>
    ensures means { IfOk result (λ holds. Computes local.old local.new
        (λ s. (s, condition_holds sid (condition_view condition.entry) s)) holds) }
    ensures extends { Extends sid local.old local.new }
{
    match condition {
        Condition::Known(holds) => Ok(holds),
        Condition::Path(test, operand) => Ok(operand_passes(alloc, test, sid, operand, local)?),
    }
}

/// Tests the condition that operands make, for the utility with the given name.
#[tactic(auto, unfolding(crate::specs::Conditions::condition_call))]
pub(crate) fn run_condition<V: View>(
    alloc: Global,
    sid: u32,
    name: &str,
    operands: &[String],
    local: &mut Local<V>,
) -> Result<Done, NoMem>
    ensures means { IfOk result (λ done. Computes local.old local.new
        (condition_call name.now sid (map string_bytes operands.now)) done) }
    ensures extends { Extends sid local.old local.new }
{
    match Condition::of(operands) {
        Some(condition) => {
            let holds = condition_holds(alloc, sid, condition, local)?;
            Ok(Done::nothing(alloc, if holds { 0 } else { 1 }))
        }
        None => Ok(Done::usage(alloc, name)?),
    }
}

/// Runs `[`: tests the condition that the fields before the last one make. The last one must be
/// `]`.
#[tactic(auto, unfolding(crate::specs::Conditions::bracket_call))]
pub(crate) fn run_bracket<V: View>(
    alloc: Global,
    sid: u32,
    fields: &[String],
    local: &mut Local<V>,
) -> Result<Done, NoMem>
    ensures means { IfOk result (λ done. Computes local.old local.new
        (bracket_call sid (map string_bytes fields.now)) done) }
    ensures extends { Extends sid local.old local.new }
{
    match before_bracket(fields) {
        Some(operands) => Ok(run_condition(alloc, sid, "[", operands, local)?),
        None => Ok(Done::usage(alloc, "[")?),
    }
}
