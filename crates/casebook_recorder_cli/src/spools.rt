//! Spools with names, and what is sent to them.
ghost use Rattle.std.specs.Prelude.{◌≡◌, IfOk, IfSome, Option, Some};
ghost use Rattle.casebook_recorder_cli.specs.Spools.{AllSpools, empty};

use casebook_case::SpoolSource;
use casebook_observe::{Spool, Watched};
use retro_path::Path;
use std::alloc::Global;
use thiserror::Error;

/// Why a spool, or what it watches, can't be opened.
#[derive(Clone, Copy, Debug, Drop, PartialEq, Eq, Error)]
pub enum OpenError {
    /// Allocation failed.
    #[error("out of memory")]
    NoMem,
    /// There is no spool with the name.
    #[error("there is no such spool")]
    Missing,
    /// A spool is to be made, and there is something with its name.
    #[error("there is something with this name already")]
    Exists,
    /// Somebody else has the spool.
    #[error("somebody else has this spool")]
    Busy,
    /// The file that names the folders is damaged.
    #[error("its list of folders can't be read")]
    Damaged,
    /// A folder isn't there, or isn't one.
    #[error("a folder that it watches isn't there")]
    NoFolder,
    /// The system refused something else.
    #[error("the system refuses to open it")]
    Failed,
}

/// The greatest length of what is sent, in bytes.
pub const SENT_LIMIT: usize = 16_777_216;

/// A spool that is open, with the folders that it watches.
#[derive(Drop)]
pub struct OpenSpool<S, W> {
    /// The spool.
    pub spool: S,
    /// The folders.
    pub watched: W,
}

/// Spools with names, the folders that they watch, and what is sent to one of them.
pub trait Spools {
    /// A spool that is open.
    type Kept: Spool + Drop;

    /// Folders that are open to be looked at.
    type Seen: Watched + Drop;

    /// A spool that is open to be read.
    type Source: SpoolSource + Drop;

    // What the spools with names hold, what a look at folders finds, and what was sent by whom; or
    // `None` where nothing is said of that.
    ghost spools: { Self → Option AllSpools };

    /// Returns what was sent. If that is longer than [`SENT_LIMIT`], a front of it is enough that is
    /// longer.
    fn sent(&self, alloc: Global) -> Result<Vec<u8>, OpenError>
        ensures { IfSome (spools self.now) (λ all. IfOk result (λ sent. sent.items ≡ all.sent)) };

    /// Returns the number of the user who sent it, if the system says that.
    fn sender(&self) -> Result<Option<u32>, OpenError>
        ensures { IfSome (spools self.now) (λ all. IfOk result (λ sender.
            sender ≡ all.sender)) };

    /// Opens the spool with a name, and the folders that it watches. Nobody else has it as long as
    /// it is open.
    fn open_spool(
        &self,
        alloc: Global,
        name: &str,
    ) -> Result<OpenSpool<Self::Kept, Self::Seen>, OpenError>
        ensures { IfSome (spools self.now) (λ all. IfOk result (λ opened.
            (Self.Kept.holds opened.spool ≡ Some (all.held name.now))
            × (Self.Seen.finds opened.watched ≡ Some (all.found (all.watched name.now))))) };

    /// Opens the spool with a name to be read: its files as they are at one moment. Its folders
    /// needn't be there.
    fn spool_source(&self, alloc: Global, name: &str) -> Result<Self::Source, OpenError>
        ensures { IfSome (spools self.now) (λ all. IfOk result (λ source.
            Self.Source.holds source ≡ Some (all.held name.now))) };

    /// Returns the folders that the spool with a name watches.
    fn folders_of(&self, alloc: Global, name: &str) -> Result<Vec<Path>, OpenError>
        ensures { IfSome (spools self.now) (λ all. IfOk result (λ folders.
            folders.items ≡ all.watched name.now)) };

    /// Returns the rows of the folders that the spool with a name watches, and in which it wasn't
    /// always seen what lines only read.
    fn unseen_of(&self, alloc: Global, name: &str) -> Result<Vec<u8>, OpenError>
        ensures { IfSome (spools self.now) (λ all. IfOk result (λ rows.
            rows.items ≡ all.unseen name.now)) };

    /// Makes a spool with a name, for folders, and opens it. It has no first look.
    fn make_spool(
        &self,
        alloc: Global,
        name: &str,
        folders: &[Path],
    ) -> Result<OpenSpool<Self::Kept, Self::Seen>, OpenError>
        ensures { IfSome (spools self.now) (λ all. IfOk result (λ opened.
            (Self.Kept.holds opened.spool ≡ Some empty)
            × (Self.Seen.finds opened.watched ≡ Some (all.found folders.now)))) };
}
