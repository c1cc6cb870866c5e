//! Tables of mounts.
ghost use Rattle.std.specs.Prelude.{◌≡◌, IfOk};
ghost use Rattle.casebook_host.specs.Mounts.{mounts_in};

use crate::NoMem;
use crate::mount::Mount;
use crate::words::{rows_of, words_of};
use std::alloc::Global;

/// Returns the mounts of a table, in the order of its rows.
pub(crate) fn mounts_in(alloc: Global, table: &[u8]) -> Result<Vec<Mount>, NoMem>
    ensures { IfOk result (λ mounts. mounts.items ≡ mounts_in table.now) }
{
    let rows = rows_of(alloc, table)?;
    let mut mounts = Vec::new(alloc);
    for row in rows.as_slice() {
        let words = words_of(alloc, row)?;
        if let Some(mount) = Mount::of(alloc, words.as_slice())? {
            mounts.push(mount)?;
        }
    }
    Ok(mounts)
}
