//! Paths below `/.casebook`.
ghost use Rattle.std.specs.Prelude.{◌≡◌, IfOk, IsTrue, map};
ghost use Rattle.std.specs.List.{list_all};
ghost use Rattle.retro_path.specs.Name.{is_name};
ghost use Rattle.casebook_explain.specs.Places.{casebook, shelf_directory, shelf_path, shell_path};

use crate::NoMem;
use retro_tree::Path;
use std::alloc::Global;

/// Returns the path of names.
fn path_of(alloc: Global, names: &[&str]) -> Result<Path, NoMem>
    requires { IsTrue (list_all is_name (map (λ name. name.now) names.now)) }
    ensures { IfOk result (λ path. path ≡ map (λ name. name.now) names.now) }
{
    match Path::of_names(alloc, names)? {
        Some(path) => Ok(path),
        None => unreachable!(),
    }
}

/// Returns `/.casebook`.
#[tactic(auto, unfolding(crate::specs::Places::casebook), using(crate::proofs::Names::ours_is_name))]
pub(crate) fn casebook(alloc: Global) -> Result<Path, NoMem>
    ensures { IfOk result (λ path. path ≡ casebook) }
{
    path_of(alloc, &[".casebook"])
}

/// Returns the directory of the shelf of a line.
#[tactic(auto, unfolding(crate::specs::Places::shelf_directory), using(crate::proofs::Names::one_name))]
pub(crate) fn shelf_directory(alloc: Global, line: u32) -> Result<Path, NoMem>
    ensures { IfOk result (λ path. path ≡ shelf_directory line) }
{
    let line = format!(in alloc; "{line}")?;
    path_of(alloc, &[".casebook", line.as_str()])
}

/// Returns the path of a file on the shelf of a line.
#[tactic(auto, unfolding(crate::specs::Places::shelf_path), using(crate::proofs::Names::two_names))]
pub(crate) fn shelf_path(alloc: Global, line: u32, number: usize) -> Result<Path, NoMem>
    ensures { IfOk result (λ path. path ≡ shelf_path line number) }
{
    let line = format!(in alloc; "{line}")?;
    let number = format!(in alloc; "{number}")?;
    path_of(alloc, &[".casebook", line.as_str(), number.as_str()])
}

/// Returns the path of the file that holds the functions, aliases and options of a session.
#[tactic(auto, unfolding(crate::specs::Places::shell_path), using(crate::proofs::Names::shell_name))]
pub fn shell_path(alloc: Global, session: u32) -> Result<Path, NoMem>
    ensures { IfOk result (λ path. path ≡ shell_path session) }
{
    let session = format!(in alloc; "{session}")?;
    path_of(alloc, &[".casebook", "shell", session.as_str()])
}
