//! Sights of paths.
ghost use Rattle.std.specs.Prelude.{◌≡◌, IfOk, OnOk, OnErr, nat_eq};
ghost use Rattle.std.specs.Option.{option_copied};
ghost use Rattle.std.specs.FinMap as map;
ghost use Rattle.casebook_watch.specs.Delta.{after_changes, with_change};

use crate::NoMem;
use crate::sight::Sight;
use crate::sight_change::SightChange;
use retro_path::Path;
use std::alloc::Global;
use std::collections::BTreeMap;
use std::collections::btree_map::Iter;
use std::marker::Model;

/// What one look at watched folders says: a sight for each path at which something is.
#[derive(Drop)]
pub struct Sights {
    sights: BTreeMap<Path, Sight>,
}

impl Model for Sights {
    ghost use Rattle.std.specs.FinMap as map;
    ghost use Rattle.std.specs.Coded.{coded_ℕ, coded_list};
    ghost use Rattle.retro_path.specs.Order.{path_cmp};
    ghost use Rattle.casebook_watch.specs.declared.sight.Sight.{Sight};
    ghost use Rattle.casebook_watch.specs.inner.SightCode.{coded_sight};

    ghost Value = { map.FinMap path_cmp Sight };

    ghost coded = { map.code (coded_list (coded_list coded_ℕ)) coded_sight };

    ghost view = { λ a. map.from_entries a.sights.entries };
}

impl Sights {
    /// Returns no sights. Takes no memory.
    pub fn new(alloc: Global) -> Sights
        ensures { result ≡ map.empty }
    {
        Sights {
            sights: BTreeMap::new(alloc),
        }
    }

    /// Returns the number of paths.
    pub fn len(&self) -> usize
        ensures { result ≡ map.len self.now }
    {
        self.sights.len()
    }

    /// Returns whether there are no sights.
    pub fn is_empty(&self) -> bool
        ensures { result ≡ nat_eq (map.len self.now) 0 }
    {
        self.len() == 0
    }

    /// Returns the sight of a path, or `None` if nothing is there.
    pub fn get(&self, path: &Path) -> Option<&Sight>
        ensures { option_copied result ≡ map.get self.now path.now }
    {
        self.sights.get(path)
    }

    /// Returns the sights, in order of their paths.
    pub fn iter(&self) -> Iter<'_, Path, Sight>
        ensures { result ≡ map.entries self.now }
    {
        self.sights.iter()
    }

    /// Sets the sight of a path, in place of the one that it has.
    pub fn insert(&mut self, path: Path, sight: Sight) -> Result<(), NoMem>
        ensures ok { OnOk result (self.new ≡ map.insert self.old path sight) }
        ensures err { OnErr result (self.new ≡ self.old) }
    {
        self.sights.insert(path, sight)?;
        Ok(())
    }

    /// Removes the sight of a path, if it has one. Takes no memory.
    fn remove(&mut self, path: &Path)
        ensures { self.new ≡ map.remove self.old path.now }
    {
        self.sights.remove(path);
    }

    /// Makes one change.
    pub fn make(&mut self, change: &SightChange) -> Result<(), NoMem>
        ensures { OnOk result (self.new ≡ with_change self.old change.now) }
    {
        match change.sight {
            Some(sight) => self.insert(change.path.copy()?, sight),
            None => {
                self.remove(&change.path);
                Ok(())
            }
        }
    }

    /// Returns the sights after some changes, made one after the other.
    pub fn updated(self, changes: &[SightChange]) -> Result<Sights, NoMem>
        ensures { IfOk result (λ sights. sights ≡ after_changes self changes.now) }
    {
        let mut sights = self;
        for change in changes {
            sights.make(change)?;
        }
        Ok(sights)
    }
}
