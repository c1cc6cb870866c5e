//! The targets of `cp` and `mv`.
ghost use Rattle.std.specs.Prelude.{◌≡◌, IfOk};
ghost use Rattle.retro_local.specs.Runs.{Computes, Extends, ExtendsTree};
ghost use Rattle.retro_local.specs.Kinds.{kind_at};
ghost use Rattle.retro_utils.specs.Transfers.{target_by_kind, target_of, target_path};

use crate::operand::locate;
use crate::reason::Reason;
use retro_local::Local;
use retro_tree::{Kind, NoMem, Path, View};
use std::alloc::Global;

/// Where sources go.
#[derive(Drop)]
pub(crate) enum Target {
    /// Into a directory, where each keeps its last name.
    Into(Path),
    /// To one path.
    Onto(Path),
}

impl Target {
    /// Returns the path that a source goes to.
    pub(crate) fn path_for(&self, alloc: Global, source: &Path) -> Result<Path, NoMem>
        ensures { IfOk result (λ path. path ≡ target_path self.now source.now) }
    {
        match self {
            Target::Into(directory) => match source.last(alloc)? {
                Some(name) => directory.child(alloc, &name),
                None => directory.copy(),
            },
            Target::Onto(path) => path.copy(),
        }
    }

    /// Returns the target at a path. If there are several sources, it must be a directory.
    fn at<V: View>(
        alloc: Global,
        several: bool,
        path: Path,
        local: &mut Local<V>,
    ) -> Result<Result<Target, Reason>, NoMem>
        ensures means { IfOk result (λ target. Computes local.old local.new
            (λ s. (s, target_by_kind several path (kind_at path s))) target) }
        ensures extends { ExtendsTree local.old local.new }
    {
        match local.kind_at(alloc, &path)? {
            Kind::Dir => Ok(Ok(Target::Into(path))),
            Kind::Missing | Kind::File if several => Ok(Err(Reason::NotDirectory)),
            Kind::Missing | Kind::File => Ok(Ok(Target::Onto(path))),
        }
    }

    /// Returns the target that the last operand names.
    #[tactic(auto, unfolding(crate::specs::Transfers::target_of))]
    pub(crate) fn of<V: View>(
        alloc: Global,
        sid: u32,
        several: bool,
        last: &str,
        local: &mut Local<V>,
    ) -> Result<Result<Target, Reason>, NoMem>
        ensures means { IfOk result (λ target. Computes local.old local.new
            (λ s. (s, target_of sid several last.now s)) target) }
        ensures extends { Extends sid local.old local.new }
    {
        match locate(alloc, sid, last, local)? {
            Ok(path) => Ok(Target::at(alloc, several, path, local)?),
            Err(reason) => Ok(Err(reason)),
        }
    }
}
