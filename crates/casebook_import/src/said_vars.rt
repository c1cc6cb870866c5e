//! Variables that a record says.
ghost use Rattle.std.specs.Prelude.{◌≡◌, OnOk};
ghost use Rattle.std.specs.Option.{option_copied};
ghost use Rattle.std.specs.FinMap as finmap;

use crate::NoMem;
use retro_tree::{Text, VarName};
use std::alloc::Global;
use std::collections::BTreeMap;
use std::collections::btree_map::Iter;
use std::marker::Model;

/// Variables that a record says, with their values.
#[derive(Drop)]
pub(crate) struct SaidVars {
    values: BTreeMap<VarName, Text>,
}

impl Model for SaidVars {
    ghost use Rattle.std.specs.Prelude.{List, ℕ};
    ghost use Rattle.std.specs.FinMap as finmap;
    ghost use Rattle.std.specs.Coded.{coded_ℕ, coded_list};
    ghost use Rattle.retro_path.specs.Order.{text_cmp};

    ghost Value = { finmap.FinMap text_cmp (List ℕ) };

    ghost coded = { finmap.code (coded_list coded_ℕ) (coded_list coded_ℕ) };

    ghost view = { λ a. finmap.from_entries a.values.entries };
}

impl SaidVars {
    /// Returns no variables. Takes no memory.
    pub(crate) fn new(alloc: Global) -> SaidVars
        ensures { result ≡ finmap.empty }
    {
        SaidVars {
            values: BTreeMap::new(alloc),
        }
    }

    /// Sets a variable.
    pub(crate) fn insert(&mut self, name: VarName, text: Text) -> Result<(), NoMem>
        ensures { OnOk result (self.new ≡ finmap.insert self.old name text) }
    {
        self.values.insert(name, text)?;
        Ok(())
    }

    /// Returns the value of a variable, or `None` if it isn't set.
    pub(crate) fn get(&self, name: &VarName) -> Option<&Text>
        ensures { option_copied result ≡ finmap.get self.now name.now }
    {
        self.values.get(name)
    }

    /// Returns the variables with their values, in order of names.
    pub(crate) fn iter(&self) -> Iter<'_, VarName, Text>
        ensures { result ≡ finmap.entries self.now }
    {
        self.values.iter()
    }

    /// Returns the map of the variables.
    pub(crate) fn into_values(self) -> BTreeMap<VarName, Text>
        ensures { finmap.from_entries result.entries ≡ self }
    {
        let SaidVars { values } = self;
        values
    }
}
