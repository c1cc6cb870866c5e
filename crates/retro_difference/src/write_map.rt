//! Maps from cells to writes.
ghost use Rattle.std.specs.Prelude.{◌≡◌, OnOk};
ghost use Rattle.std.specs.FinMap as map;

use crate::write::Write;
use retro_tree::{Cell, NoMem};
use std::alloc::Global;
use std::collections::BTreeMap;
use std::collections::btree_map::IntoIter;
use std::marker::Model;

/// The writes of a plan, by cell.
#[derive(Drop)]
pub(crate) struct WriteMap {
    writes: BTreeMap<Cell, Write>,
}

impl Model for WriteMap {
    ghost use Rattle.std.specs.FinMap as map;
    ghost use Rattle.retro_tree.specs.CellOrder.{cell_cmp, coded_cell};
    ghost use Rattle.retro_difference.specs.inner.Write.{coded_write};
    ghost use Rattle.retro_difference.specs.declared.write.Write.{Write};

    ghost Value = { map.FinMap cell_cmp Write };

    ghost coded = { map.code coded_cell coded_write };

    ghost view = { λ a. map.from_entries a.writes.entries };
}

impl WriteMap {
    /// Returns no writes. Takes no memory.
    pub(crate) fn new(alloc: Global) -> WriteMap
        ensures { result ≡ map.empty }
    {
        WriteMap {
            writes: BTreeMap::new(alloc),
        }
    }

    /// Sets the write of a cell.
    pub(crate) fn insert(&mut self, cell: Cell, write: Write) -> Result<(), NoMem>
        ensures ok { OnOk result (self.new ≡ map.insert self.old cell write) }
    {
        self.writes.insert(cell, write)?;
        Ok(())
    }

    /// Returns the cells with their writes, in order.
    pub(crate) fn into_entries(self) -> IntoIter<Cell, Write>
        ensures { result ≡ map.entries self }
    {
        self.writes.into_iter()
    }
}
