//! The variables of a session.
ghost use Rattle.std.specs.Prelude.{◌≡◌, IfOk, OnOk, OnErr, None, true};
ghost use Rattle.std.specs.Option.{option_copied};
ghost use Rattle.std.specs.FinMap as map;
ghost use Rattle.retro_tree.specs.Limits.{values_fit};

use crate::session::VALUE_LIMIT;
use retro_path::{NoMem, Text, VarName};
use std::alloc::Global;
use std::collections::BTreeMap;
use std::collections::btree_map::Iter;
use std::marker::Model;

/// The variables of a session.
#[derive(Drop, Clone)]
pub struct Vars {
    values: BTreeMap<VarName, Text>,
}

impl Model for Vars {
    ghost use Rattle.std.specs.Prelude.{List, ℕ};
    ghost use Rattle.std.specs.FinMap as map;
    ghost use Rattle.std.specs.Coded.{coded_ℕ, coded_list};
    ghost use Rattle.retro_tree.specs.Order.{text_cmp};

    ghost Value = { map.FinMap text_cmp (List ℕ) };

    ghost coded = { map.code (coded_list coded_ℕ) (coded_list coded_ℕ) };

    ghost view = { λ a. map.from_entries a.values.entries };
}

impl Vars {
    /// Returns no variables.
    pub(crate) fn new(alloc: Global) -> Vars
        ensures { result ≡ map.empty }
    {
        Vars {
            values: BTreeMap::new(alloc),
        }
    }

    /// Makes variables of a map.
    pub(crate) fn of(values: BTreeMap<VarName, Text>) -> Vars
        ensures { result ≡ map.from_entries values.entries }
    {
        Vars { values }
    }

    /// Returns the value of a variable, or `None` if it isn't set.
    pub fn get(&self, name: &VarName) -> Option<&Text>
        ensures { option_copied result ≡ map.get self.now name.now }
    {
        self.values.get(name)
    }

    /// Sets a variable and returns its previous value. Takes no memory if the variable is set.
    pub(crate) fn insert(&mut self, name: VarName, value: Text) -> Result<Option<Text>, NoMem>
        ensures previous { IfOk result (λ previous. previous ≡ map.get self.old name) }
        ensures ok { OnOk result (self.new ≡ map.insert self.old name value) }
        ensures err { OnErr result (self.new ≡ self.old) }
        ensures absent { OnErr result (map.get self.old name ≡ None) }
    {
        Ok(self.values.insert(name, value)?)
    }

    /// Sets a variable that is set already. Takes no memory.
    pub(crate) fn replace(&mut self, name: VarName, text: Text)
        requires { map.contains_key self.old name ≡ true }
        ensures { self.new ≡ map.insert self.old name text }
    {
        match self.insert(name, text) {
            Ok(_) => (),
            Err(_) => unreachable!(),
        }
    }

    /// Unsets a variable. Takes no memory.
    pub(crate) fn remove(&mut self, name: &VarName)
        ensures { self.new ≡ map.remove self.old name.now }
    {
        self.values.remove(name);
    }

    /// Returns the variables with their values, in order of names.
    pub fn iter(&self) -> Iter<'_, VarName, Text>
        ensures { result ≡ map.entries self.now }
    {
        self.values.iter()
    }

    /// Returns whether each value is within the limit.
    #[tactic(auto, unfolding(crate::specs::Limits::values_fit))]
    pub(crate) fn fit(&self) -> bool
        ensures { result ≡ values_fit self.now }
    {
        for (_, value) in self.iter() {
            if value.bytes().len() > VALUE_LIMIT {
                return false;
            }
        }
        true
    }
}
