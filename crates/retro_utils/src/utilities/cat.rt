//! `cat` (XCU cat).
ghost use Rattle.std.specs.Prelude.{◌≡◌, IfOk, map, string_bytes};
ghost use Rattle.retro_local.specs.Runs.{Computes, Extends};
ghost use Rattle.retro_utils.specs.Cat.{cat, concatenated};
ghost use Rattle.retro_utils.specs.Outcomes.{nothing_done};
ghost use Rattle.retro_utils.specs.Reading.{sources};

use crate::done::Done;
use crate::input::Input;
use crate::operand::read_source;
use retro_local::Local;
use retro_tree::{NoMem, View};
use std::alloc::Global;
use std::slice::from_ref;

/// Returns the bytes of each operand in turn.
fn concatenate<V: View>(
    alloc: Global,
    sid: u32,
    operands: &[String],
    input: Input,
    local: &mut Local<V>,
) -> Result<Done, NoMem>
    ensures means { IfOk result (λ done. Computes local.old local.new
        (λ s. (
          s,
          concatenated (sources sid (map string_bytes operands.now) input s)
              (nothing_done 0),
        )) done) }
    ensures extends { Extends sid local.old local.new }
{
    let mut input = input;
    let mut done = Done::nothing(alloc, 0);
    for operand in operands {
        let reading = read_source(alloc, sid, operand, &mut input, local)?;
        done.reading("cat", operand, reading)?;
    }
    Ok(done)
}

/// Runs `cat`: prints the bytes of each operand in turn, or of standard input if there is no
/// operand.
#[tactic(auto, unfolding(crate::specs::Cat::cat))]
pub(crate) fn cat<V: View>(
    alloc: Global,
    sid: u32,
    operands: &[String],
    input: Input,
    local: &mut Local<V>,
) -> Result<Done, NoMem>
    ensures means { IfOk result (λ done. Computes local.old local.new
        (cat sid (map string_bytes operands.now) input) done) }
    ensures extends { Extends sid local.old local.new }
{
    match operands {
        [] => {
            let dash = String::from_str(alloc, "-")?;
            Ok(concatenate(alloc, sid, from_ref(&dash), input, local)?)
        }
        [_, ..] => Ok(concatenate(alloc, sid, operands, input, local)?),
    }
}
