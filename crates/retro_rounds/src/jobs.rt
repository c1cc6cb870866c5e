//! The lines to run ahead of their turns.
ghost use Rattle.std.specs.Prelude.{◌≡◌, IfOk};

use retro_tree::NoMem;
use std::alloc::Global;
use std::collections::BTreeSet;

/// Returns the numbers of a set in order.
pub(crate) fn in_order(alloc: Global, numbers: &BTreeSet<u32>) -> Result<Vec<u32>, NoMem>
    ensures { IfOk result (λ list. list.items ≡ numbers.now.keys) }
{
    let mut list = Vec::with_capacity(alloc, numbers.len())?;
    for number in numbers.iter() {
        list.push(*number)?;
    }
    Ok(list)
}
