//! `pwd` (XCU pwd).
ghost use Rattle.std.specs.Prelude.{◌≡◌, IfOk, map, string_bytes};
ghost use Rattle.retro_local.specs.Runs.{Computes, Extends};
ghost use Rattle.retro_utils.specs.Directories.{path_text, pwd};

use crate::done::Done;
use retro_local::Local;
use retro_tree::{Bytes, NoMem, Path, View};
use std::alloc::Global;

/// Returns the text of a path: `/a/b`, and `/` for the root.
fn path_text(alloc: Global, path: &Path) -> Result<Bytes, NoMem>
    ensures { IfOk result (λ text. text ≡ path_text path.now) }
{
    let mut text = Bytes::new(alloc);
    if path.is_root() {
        text.extend(b"/")?;
    } else {
        text.extend(path.as_str().as_bytes())?;
    }
    Ok(text)
}

/// Runs `pwd`: prints the directory of the session and a newline.
#[tactic(auto, unfolding(crate::specs::Directories::pwd))]
pub(crate) fn pwd<V: View>(
    alloc: Global,
    sid: u32,
    operands: &[String],
    local: &mut Local<V>,
) -> Result<Done, NoMem>
    ensures means { IfOk result (λ done. Computes local.old local.new
        (pwd sid (map string_bytes operands.now)) done) }
    ensures extends { Extends sid local.old local.new }
{
    match operands {
        [] => {
            let cwd = local.cwd(alloc, sid)?;
            let mut done = Done::nothing(alloc, 0);
            done.out = path_text(alloc, &cwd)?;
            done.out.extend(b"\n")?;
            Ok(done)
        }
        [_, ..] => Ok(Done::usage(alloc, "pwd")?),
    }
}
