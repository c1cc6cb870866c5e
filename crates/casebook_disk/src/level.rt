//! Directories in which a look is.
use crate::NoMem;
use crate::earlier::Earlier;
use crate::place::{OpenDir, name_in};
use casebook_watch::Sight;
use retro_path::{Name, Path};
use std::alloc::Global;
use std::io;

/// A path in a directory, and its sight at the look before.
#[derive(Drop)]
pub(crate) struct Child<'s> {
    /// The path.
    pub(crate) path: Path,
    /// Its sight at the look before, if it had one.
    pub(crate) before: Option<&'s Sight>,
}

/// A directory that is open while a look is at what is in it.
#[derive(Drop)]
pub(crate) struct Level {
    /// The directory.
    open: OpenDir,
    /// The names in it that are left, from the last to the first, or `None` for those that it had
    /// at the look before.
    names: Option<Vec<Vec<u8>>>,
    /// What is before the name of a child in a name by which the system opens it.
    front: String,
    /// A name by which the system opens the child that is looked at.
    at: String,
}

/// Returns bytes as a name of a path, or `None` if they can't be one.
fn name_of(bytes: Vec<u8>) -> Option<Name> {
    match String::from_utf8(bytes) {
        Ok(text) => Name::of(text),
        Err(_) => None,
    }
}

impl Level {
    /// Returns an open directory with names that are left in it.
    pub(crate) fn of(
        alloc: Global,
        open: OpenDir,
        names: Option<Vec<Vec<u8>>>,
    ) -> io::Result<Level> {
        Ok(Level {
            front: name_in(alloc, &open.dir, "")?,
            at: String::new(alloc),
            open,
            names,
        })
    }

    /// Returns a name by which the system opens the child that came last.
    pub(crate) fn at(&self) -> &str {
        self.at.as_str()
    }

    /// Puts a name in place of that of the child that came last.
    fn set_name(&mut self, name: &str) -> Result<(), NoMem> {
        self.at.clear();
        self.at.push_str(self.front.as_str())?;
        self.at.push_str(name)
    }

    /// Returns the next name of those that were listed. Those that no path has are left out.
    fn next_name(&mut self) -> Option<Name> {
        for _ in 0..u64::MAX {
            let bytes = self.names.as_mut()?.pop()?;
            if let Some(name) = name_of(bytes) {
                return Some(name);
            }
        }
        None
    }

    /// Goes on to the next child, and returns it, if there is one.
    pub(crate) fn next<'s>(
        &mut self,
        alloc: Global,
        earlier: &mut Earlier<'s>,
    ) -> Result<Option<Child<'s>>, NoMem> {
        if self.names.is_none() {
            let Some(child) = earlier.child(&self.open.path) else {
                return Ok(None);
            };
            self.set_name(child.name)?;
            return Ok(Some(Child {
                path: child.path.copy()?,
                before: Some(child.sight),
            }));
        }
        let Some(name) = self.next_name() else {
            return Ok(None);
        };
        self.set_name(name.as_str())?;
        let path = self.open.path.child(alloc, &name)?;
        let before = earlier.at(&path);
        Ok(Some(Child { path, before }))
    }
}
