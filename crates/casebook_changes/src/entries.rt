//! The entries of a tree, read one by one.
ghost use Rattle.std.specs.Prelude.{◌≡◌, option_map};
ghost use Rattle.std.specs.FinMap as map;
ghost use Rattle.casebook_changes.specs.inner.Merge.{entry_of, first_of, rest_of};

use retro_tree::{Entry, Path, Tree};
use std::collections::btree_map::Iter;
use std::marker::Model;

/// The entries of a tree that are still to be read, in order of paths.
#[derive(Drop)]
pub(crate) struct Entries<'a> {
    first: Option<(&'a Path, &'a Entry)>,
    rest: Iter<'a, Path, Entry>,
}

impl<'a> Model for Entries<'a> {
    ghost use Rattle.std.specs.Prelude.{List, option_map};
    ghost use Rattle.std.specs.Coded.{coded×, coded_list, coded_ℕ};
    ghost use Rattle.retro_tree.specs.Path.{PathValue};
    ghost use Rattle.retro_tree.specs.declared.entry.Entry.{Entry};
    ghost use Rattle.retro_tree.specs.inner.Entry.{coded_entry};
    ghost use Rattle.casebook_changes.specs.inner.Merge.{entry_of, from_first};

    ghost Value = { List (PathValue × Entry) };

    ghost coded = { coded_list (coded× (coded_list (coded_list coded_ℕ)) coded_entry) };

    ghost view = { λ a. from_first (option_map entry_of a.first) a.rest };
}

impl<'a> Entries<'a> {
    /// Returns all entries of a tree.
    pub(crate) fn of(tree: &'a Tree) -> Entries<'a>
        ensures { result ≡ map.entries tree.now }
    {
        let mut rest = tree.iter();
        let first = rest.next();
        Entries { first, rest }
    }

    /// Returns the first entry, or `None` if all entries are read.
    pub(crate) fn first(&self) -> Option<(&'a Path, &'a Entry)>
        ensures { option_map entry_of result ≡ first_of self.now }
    {
        self.first
    }

    /// Goes to the next entry, if there is one.
    pub(crate) fn advance(&mut self)
        ensures { self.new ≡ rest_of self.old }
    {
        if self.first.is_some() {
            self.first = self.rest.next();
        }
    }
}
