//! Texts by numbers.
ghost use Rattle.std.specs.Prelude.{◌≡◌, OnErr, OnOk};
ghost use Rattle.std.specs.Option.{option_copied};
ghost use Rattle.std.specs.FinMap as map;

use crate::NoMem;
use retro_tree::Text;
use std::alloc::Global;
use std::collections::BTreeMap;
use std::marker::Model;

/// Texts by numbers.
#[derive(Drop)]
pub(crate) struct LabelMap {
    texts: BTreeMap<u32, Text>,
}

impl Model for LabelMap {
    ghost use Rattle.std.specs.Prelude.{List, ℕ};
    ghost use Rattle.std.specs.FinMap as map;
    ghost use Rattle.std.specs.Coded.{coded_ℕ, coded_list};
    ghost use Rattle.std.specs.Ordering.{nat_cmp};

    ghost Value = { map.FinMap nat_cmp (List ℕ) };

    ghost coded = { map.code coded_ℕ (coded_list coded_ℕ) };

    ghost view = { λ a. map.from_entries a.texts.entries };
}

impl LabelMap {
    /// Returns no texts. Takes no memory.
    pub(crate) fn new(alloc: Global) -> LabelMap
        ensures { result ≡ map.empty }
    {
        LabelMap {
            texts: BTreeMap::new(alloc),
        }
    }

    /// Returns the text of a number, or `None` if it has none.
    pub(crate) fn get(&self, number: u32) -> Option<&Text>
        ensures { option_copied result ≡ map.get self.now number }
    {
        self.texts.get(&number)
    }

    /// Gives a text to a number, in place of the one that it has.
    pub(crate) fn insert(&mut self, number: u32, text: Text) -> Result<(), NoMem>
        ensures ok { OnOk result (self.new ≡ map.insert self.old number text) }
        ensures err { OnErr result (self.new ≡ self.old) }
    {
        self.texts.insert(number, text)?;
        Ok(())
    }
}
