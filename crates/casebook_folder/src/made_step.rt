//! Steps that were made.
ghost use Rattle.std.specs.Prelude.{◌≡◌, [], ◌∷◌, ◌++◌, OnErr, OnOk, map};
ghost use Rattle.casebook_folder.specs.Made.{step_of};
ghost use Rattle.casebook_folder.specs.Steps.{step};

use crate::NoMem;
use crate::found::Found;
use retro_path::Path;

/// A step that was made, as a folder keeps it.
#[derive(Drop)]
pub struct MadeStep {
    /// The path.
    pub path: Path,
    /// What had to be there.
    pub before: Found,
    /// What was put there.
    pub after: Found,
}

/// Appends a step. If allocation fails, the steps are unchanged.
pub fn push_step(
    made: &mut Vec<MadeStep>,
    path: &Path,
    before: &Found,
    after: &Found,
) -> Result<(), NoMem>
    ensures ok { OnOk result (map step_of made.new.items
        ≡ map step_of made.old.items ++ step path.now before.now after.now ∷ []) }
    ensures err { OnErr result (made.new.items ≡ made.old.items) }
{
    let path = path.copy()?;
    let before = before.copy()?;
    let after = after.copy()?;
    made.push(MadeStep {
        path,
        before,
        after,
    })?;
    Ok(())
}
