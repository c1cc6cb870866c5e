//! What one look changes in the sights of the look before.
ghost use Rattle.std.specs.Prelude.{◌≡◌, ◌++◌, IfOk, OnOk};
ghost use Rattle.std.specs.Option.{option_copied};
ghost use Rattle.casebook_watch.specs.Delta.{after_changes, delta};

use crate::NoMem;
use crate::sight_change::SightChange;
use crate::sights::Sights;
use std::alloc::Global;

/// Returns the changes that lead from the sights of a look to those of a later one: first the paths
/// whose sight is new or differs, in order, and then the paths that are gone, in order.
pub fn delta_between(
    alloc: Global,
    before: &Sights,
    after: &Sights,
) -> Result<Vec<SightChange>, NoMem>
    ensures value { IfOk result (λ changes. changes.items ≡ delta before.now after.now) }
    ensures leads { IfOk result (λ changes. after_changes before.now changes.items ≡ after.now) }
{
    let mut changes = Vec::new(alloc);
    for (path, sight) in after.iter() {
        if sight.is_other(before.get(path)) {
            changes.push(SightChange {
                path: path.copy()?,
                sight: Some(*sight),
            })?;
        }
    }
    for (path, _) in before.iter() {
        if after.get(path).is_none() {
            changes.push(SightChange {
                path: path.copy()?,
                sight: None,
            })?;
        }
    }
    Ok(changes)
}
