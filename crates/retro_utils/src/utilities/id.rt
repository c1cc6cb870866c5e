//! `id -u name` (XCU id).
ghost use Rattle.std.specs.Prelude.{◌≡◌, IfOk, map, string_bytes};
ghost use Rattle.retro_local.specs.Runs.{Computes, ExtendsTree};
ghost use Rattle.retro_utils.specs.Users.{id, user_done};

use crate::done::Done;
use retro_local::Local;
use retro_tree::{NoMem, Text, User, View};
use std::alloc::Global;

/// Returns the result for a login name and its entry.
fn user_done(alloc: Global, name: &str, user: Option<User>) -> Result<Done, NoMem>
    ensures { IfOk result (λ done. done ≡ user_done name.now user) }
{
    match user {
        Some(user) => {
            let number = user.number.to_string(alloc)?;
            let mut done = Done::nothing(alloc, 0);
            done.out.extend(number.as_bytes())?;
            done.out.extend(b"\n")?;
            Ok(done)
        }
        None => {
            let mut done = Done::nothing(alloc, 1);
            done.err.extend(b"id: ")?;
            done.err.extend(name.as_bytes())?;
            done.err.extend(b": no such user\n")?;
            Ok(done)
        }
    }
}

/// Runs `id -u name`: prints the number of the user with a login name.
#[tactic(auto, unfolding(crate::specs::Users::id))]
pub(crate) fn id<V: View>(
    alloc: Global,
    operands: &[String],
    local: &mut Local<V>,
) -> Result<Done, NoMem>
    ensures means { IfOk result (λ done. Computes local.old local.new
        (id (map string_bytes operands.now)) done) }
    ensures extends { ExtendsTree local.old local.new }
{
    match operands {
        [name] => {
            let login = Text::of(String::from_str(alloc, name)?);
            let user = local.user(alloc, &login)?;
            Ok(user_done(alloc, name, user)?)
        }
        [] | [_, _, ..] => Ok(Done::usage(alloc, "id")?),
    }
}
