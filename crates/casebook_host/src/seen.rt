//! Where reading is seen.
ghost use Rattle.std.specs.Prelude.{◌≡◌, IfOk, map};
ghost use Rattle.casebook_host.specs.Mounts.{is_seen, unseen};

use crate::NoMem;
use crate::mount::Mount;
use crate::mounts::mounts_in;
use retro_path::Path;
use std::alloc::Global;

/// Returns whether reading is seen at a path.
fn is_seen(mounts: &[Mount], path: &Path) -> bool
    ensures { result ≡ is_seen mounts.now path.now }
{
    match mounts.iter().rev().find(|mount| mount.covers(path)) {
        Some(mount) => mount.shows_reading,
        None => false,
    }
}

/// Returns the folders in which reading isn't seen, in order, by the table of mounts
/// `/proc/self/mounts`.
///
/// Reading is seen in a folder if its mount has none of the options `relatime`, `noatime`,
/// `nodiratime` and `ro`. The mount of a folder is that of the last row whose point is the folder
/// or lies above it. In a folder without a mount, reading isn't seen.
pub fn unseen<'a>(alloc: Global, table: &[u8], folders: &'a [Path]) -> Result<Vec<&'a Path>, NoMem>
    ensures { IfOk result (λ found. map (λ folder. folder.now) found.items
        ≡ unseen table.now folders.now) }
{
    let mounts = mounts_in(alloc, table)?;
    folders
        .iter()
        .filter(|folder| !is_seen(mounts.as_slice(), folder))
        .collect(alloc)
}
