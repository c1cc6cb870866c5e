//! Utilities by their names.
ghost use Rattle.std.specs.Prelude.{◌≡◌, IfNone, IfOk, is_some, map, string_bytes};
ghost use Rattle.retro_local.specs.Runs.{Computes, Extends};
ghost use Rattle.retro_text.specs.Utility.{utility_named};
ghost use Rattle.retro_utils.specs.Utility.{meaning, utility};

use crate::done::Done;
use crate::fields::{
    run_cat, run_cd, run_cp, run_echo, run_id, run_mkdir, run_mv, run_pwd, run_rm, run_tee,
};
use crate::input::Input;
use crate::place::Place;
use crate::utilities::condition::{run_bracket, run_condition};
use crate::utilities::cut::run_cut;
use crate::utilities::grep::run_grep;
use retro_local::Local;
use retro_text::Utility;
use retro_tree::{NoMem, View};
use std::alloc::Global;

/// What a utility is called with.
#[derive(Drop)]
struct Call<'a> {
    /// The fields after the utility's name.
    fields: &'a [String],
    input: Input,
    place: Place,
}

/// Runs a utility.
fn run<V: View>(
    alloc: Global,
    utility: Utility,
    call: Call,
    local: &mut Local<V>,
) -> Result<Done, NoMem>
    ensures means { IfOk result (λ done. Computes local.old local.new
        (meaning utility (map string_bytes call.entry.fields.now) call.entry.input call.entry.place)
        done) }
    ensures extends { Extends call.entry.place.sid local.old local.new }
{
    let Call {
        fields,
        input,
        place,
    } = call;
    let sid = place.sid;
    match utility {
        Utility::Echo => Ok(run_echo(alloc, fields)?),
        Utility::True | Utility::Colon => Ok(Done::nothing(alloc, 0)),
        Utility::False => Ok(Done::nothing(alloc, 1)),
        Utility::Pwd => Ok(run_pwd(alloc, sid, fields, local)?),
        Utility::Cd => Ok(run_cd(alloc, place, fields, local)?),
        Utility::Id => Ok(run_id(alloc, fields, local)?),
        Utility::Test => Ok(run_condition(alloc, sid, "test", fields, local)?),
        Utility::Bracket => Ok(run_bracket(alloc, sid, fields, local)?),
        Utility::Cat => Ok(run_cat(alloc, sid, fields, input, local)?),
        Utility::Tee => Ok(run_tee(alloc, sid, fields, input, local)?),
        Utility::Cut => Ok(run_cut(alloc, sid, fields, input, local)?),
        Utility::Grep => Ok(run_grep(alloc, sid, fields, input, local)?),
        Utility::Mkdir => Ok(run_mkdir(alloc, sid, fields, local)?),
        Utility::Rm => Ok(run_rm(alloc, sid, fields, local)?),
        Utility::Cp => Ok(run_cp(alloc, sid, fields, local)?),
        Utility::Mv => Ok(run_mv(alloc, sid, fields, local)?),
    }
}

/// Runs the utility with the given name on the fields after the name. Returns `None` if no utility
/// has the name, and then the notes are unchanged.
#[tactic(auto, unfolding(crate::specs::Utility::utility))]
pub fn utility<V: View>(
    alloc: Global,
    name: &str,
    fields: &[String],
    input: Input,
    local: &mut Local<V>,
    place: Place,
) -> Result<Option<Done>, NoMem>
    ensures known { IfOk result (λ done. is_some done ≡ is_some (utility_named name.now)) }
    ensures means { IfOk result (λ done. Computes local.old local.new
        (utility name.now (map string_bytes fields.now) input place) done) }
    ensures none { IfNone (utility_named name.now) (local.new ≡ local.old) }
    ensures extends { Extends place.sid local.old local.new }
{
    match Utility::of(name) {
        Some(known) => {
            let call = Call {
                fields,
                input,
                place,
            };
            Ok(Some(run(alloc, known, call, local)?))
        }
        None => Ok(None),
    }
}
