//! What happened to paths between two looks.
ghost use Rattle.std.specs.Prelude.{◌≡◌, ◌++◌, IfOk, OnOk};
ghost use Rattle.std.specs.Option.{option_copied};
ghost use Rattle.casebook_watch.specs.Seen.{gone_paths, is_changed, is_listed, is_read};
ghost use Rattle.casebook_watch.specs.Seen.{paths_where};
ghost use Rattle.casebook_watch.specs.inner.Steps.{path_if};

use crate::NoMem;
use crate::sight::Sight;
use crate::sights::Sights;
use retro_path::Path;
use std::alloc::Global;

/// What happened to paths between two looks. Each list is in order of paths.
#[derive(Drop)]
pub struct Seen {
    /// The files that were read.
    pub read: Vec<Path>,
    /// The directories that were listed.
    pub listed: Vec<Path>,
    /// The paths at which something is new or was changed.
    pub changed: Vec<Path>,
    /// The paths at which nothing is any more.
    pub gone: Vec<Path>,
}

/// Appends a path, if a test of it is true.
fn push_if(paths: &mut Vec<Path>, path: &Path, is_true: bool) -> Result<(), NoMem>
    ensures { OnOk result (paths.new.items ≡ paths.old.items ++ path_if path.now is_true) }
{
    if is_true {
        paths.push(path.copy()?)?;
    }
    Ok(())
}

/// Returns what happened to paths between two looks, by their sights in both.
pub fn seen_between(alloc: Global, before: &Sights, after: &Sights) -> Result<Seen, NoMem>
    ensures read { IfOk result (λ seen. seen.read.items
        ≡ paths_where is_read before.now after.now) }
    ensures listed { IfOk result (λ seen. seen.listed.items
        ≡ paths_where is_listed before.now after.now) }
    ensures changed { IfOk result (λ seen. seen.changed.items
        ≡ paths_where is_changed before.now after.now) }
    ensures gone { IfOk result (λ seen. seen.gone.items ≡ gone_paths before.now after.now) }
{
    let mut read = Vec::new(alloc);
    let mut listed = Vec::new(alloc);
    let mut changed = Vec::new(alloc);
    let mut gone = Vec::new(alloc);
    for (path, sight) in after.iter() {
        let old = before.get(path);
        push_if(&mut read, path, sight.is_read(old))?;
        push_if(&mut listed, path, sight.is_listed(old))?;
        push_if(&mut changed, path, sight.is_changed(old))?;
    }
    for (path, _) in before.iter() {
        push_if(&mut gone, path, after.get(path).is_none())?;
    }
    Ok(Seen {
        read,
        listed,
        changed,
        gone,
    })
}
