//! The sights of the look before, in order of paths.
use casebook_watch::{Sight, Sights};
use retro_path::Path;
use std::cmp::Ordering;
use std::collections::btree_map::Iter;

/// What is left of the sights of the look before. A walk goes through a folder in order of paths,
/// so it goes through these sights once, and looks up nothing.
#[derive(Drop)]
pub(crate) struct Earlier<'s> {
    /// The first that is left.
    first: Option<(&'s Path, &'s Sight)>,
    /// Those after it.
    rest: Iter<'s, Path, Sight>,
}

/// A name in a directory, at the look before.
#[derive(Drop)]
pub(crate) struct EarlierChild<'s> {
    /// The path.
    pub(crate) path: &'s Path,
    /// Its last name.
    pub(crate) name: &'s str,
    /// Its sight.
    pub(crate) sight: &'s Sight,
}

impl<'s> Earlier<'s> {
    /// Returns all sights of the look before.
    pub(crate) fn of(sights: &'s Sights) -> Earlier<'s> {
        let mut rest = sights.iter();
        Earlier {
            first: rest.next(),
            rest,
        }
    }

    /// Goes on to the paths after a path, and returns the sight of that path, if it has one.
    pub(crate) fn at(&mut self, path: &Path) -> Option<&'s Sight> {
        for _ in 0..u64::MAX {
            let (first, sight) = self.first?;
            match first.cmp(path) {
                Ordering::Less => self.first = self.rest.next(),
                Ordering::Equal => {
                    self.first = self.rest.next();
                    return Some(sight);
                }
                Ordering::Greater => return None,
            }
        }
        None
    }

    /// Goes on behind the next child of a directory, and returns that child, if there is one. What
    /// is left begins in that directory, or after it.
    pub(crate) fn child(&mut self, parent: &Path) -> Option<EarlierChild<'s>> {
        for _ in 0..u64::MAX {
            let (path, sight) = self.first?;
            let names = path.strip_prefix(parent)?;
            self.first = self.rest.next();
            if let Some(name) = names.only() {
                return Some(EarlierChild { path, name, sight });
            }
        }
        None
    }
}
