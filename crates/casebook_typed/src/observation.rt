//! Observations.
ghost use Rattle.std.specs.Prelude.{◌≡◌, IfOk, map};
ghost use Rattle.casebook_typed.specs.Observations.{observations};
ghost use Rattle.casebook_typed.specs.Seeing.{observed};

use crate::NoMem;
use casebook_record::Record;
use casebook_spool::Item;
use std::alloc::Global;

/// A record, and the notes of what differs from the look before.
#[derive(Clone, Copy, Drop)]
pub struct Observation<'a> {
    /// The notes, as items.
    pub notes: &'a [Item],
    /// The record.
    pub record: &'a Record,
}

/// Returns the observations that items say. Notes after the last record belong to none.
pub fn observations<'a>(alloc: Global, items: &'a [Item]) -> Result<Vec<Observation<'a>>, NoMem>
    ensures { IfOk result (λ all. map observed all.items ≡ observations items.now) }
{
    let mut all = Vec::new(alloc);
    let mut from = 0;
    for (index, item) in items.iter().enumerate() {
        if let Item::Record(record) = item {
            all.push(Observation {
                notes: &items[from..index],
                record,
            })?;
            from = index + 1;
        }
    }
    Ok(all)
}
