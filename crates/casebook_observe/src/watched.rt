//! Folders that are watched.
ghost use Rattle.std.specs.Prelude.{◌≡◌, IfOk, IfSome, Option};
ghost use Rattle.casebook_observe.specs.Worlds.{World};

use crate::found::Found;
use crate::watch_error::WatchError;
use casebook_spool::Looked;
use casebook_watch::Sights;
use retro_path::Path;
use std::alloc::Global;

/// Folders that are watched. They are only looked at.
pub trait Watched {
    // What a look finds, or `None` where nothing is said of that.
    ghost finds: { Self → Option World };

    /// Returns what is at each path in the folders, by one look, without following links. `before`
    /// are the sights of the last look: a directory that hasn't changed since then has the same
    /// names.
    fn look(&mut self, alloc: Global, before: &Sights) -> Result<Sights, WatchError>
        ensures same { finds self.new ≡ finds self.old }
        ensures ok { IfSome (finds self.old) (λ world. IfOk result (λ sights.
            sights ≡ world.sights)) };

    /// Returns what the file or the link at a path holds.
    fn read(&mut self, alloc: Global, path: &Path) -> Result<Found, WatchError>
        ensures same { finds self.new ≡ finds self.old }
        ensures ok { IfSome (finds self.old) (λ world. IfOk result (λ found.
            found ≡ world.held path.now)) };

    /// Returns, of each file that was read and each directory that was listed since the last look
    /// began, the time of the last reading that this left.
    fn looked(&mut self, alloc: Global) -> Result<Vec<Looked>, WatchError>
        ensures same { finds self.new ≡ finds self.old }
        ensures ok { IfSome (finds self.old) (λ world. IfOk result (λ looked.
            looked.items ≡ world.looked)) };
}
