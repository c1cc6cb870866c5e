//! Names that steps change.
use crate::place::{DiskPlace, name_in, open_in};
use crate::scope::Scope;
use crate::temporary::{clear, clear_all, temporary};
use casebook_folder::{Attributes, Found, NoMem};
use std::alloc::Global;
use std::fs::{self, DirBuilder, File, OpenOptions, Permissions};
use std::io::{self, ErrorKind, Write};
use std::os::unix::fs::{DirBuilderExt, OpenOptionsExt, PermissionsExt, fchown};

/// A name in an open directory, and its temporary name.
#[derive(Drop)]
pub(crate) struct Target {
    /// The directory.
    dir: File,
    /// The name.
    name: String,
    /// The temporary name.
    temporary: String,
    /// A name by which the system opens what is at the name.
    at: String,
    /// A name by which it opens what is at the temporary name.
    pub(crate) made_at: String,
}

impl Target {
    /// Returns the target of a name in an open directory.
    pub(crate) fn of(alloc: Global, dir: File, name: String) -> Result<Target, NoMem> {
        let temporary = temporary(alloc, name.as_str())?;
        let at = name_in(alloc, &dir, name.as_str())?;
        let made_at = name_in(alloc, &dir, temporary.as_str())?;
        Ok(Target {
            dir,
            name,
            temporary,
            at,
            made_at,
        })
    }

    /// Makes a new node under the temporary name, with its mode and owner, and syncs it. If nothing
    /// is to be there, nothing is made.
    pub(crate) fn make(&self, rt: &HostRuntime, alloc: Global, after: &Found) -> io::Result<()> {
        clear(rt, self.made_at.as_str())?;
        match after {
            Found::Missing => Ok(()),
            Found::Dir(a) => self.make_dir(rt, alloc, a),
            Found::File(bytes, a) => {
                let mut options = OpenOptions::new();
                options.write(true).create_new(true).mode(0o600);
                let mut file = options.open(rt, self.made_at.as_str())?;
                file.write_all(bytes.as_slice())?;
                complete(&file, a)
            }
            Found::Blocked(_) => Err(io::Error::from(ErrorKind::InvalidInput)),
        }
    }

    /// Makes a directory under the temporary name. It is opened without following a link, if
    /// somebody else puts one there.
    fn make_dir(&self, rt: &HostRuntime, alloc: Global, a: &Attributes) -> io::Result<()> {
        let mut builder = DirBuilder::new();
        builder.mode(0o700);
        builder.create(rt, self.made_at.as_str())?;
        match open_in(
            rt,
            alloc,
            &self.dir,
            self.temporary.as_str(),
            Scope::of(&self.dir)?,
        )? {
            DiskPlace::In(made) => complete(&made, a),
            _ => Err(io::Error::from(ErrorKind::NotADirectory)),
        }
    }

    /// Renames the new node over what is at the name, or removes that, and syncs the directory.
    pub(crate) fn exchange(
        &self,
        rt: &HostRuntime,
        alloc: Global,
        before: &Found,
        after: &Found,
    ) -> io::Result<()> {
        match (before, after) {
            (Found::Dir(_), Found::Missing) => {
                clear_all(rt, alloc, &self.dir, self.name.as_str())?;
                fs::remove_dir(rt, self.at.as_str())?;
            }
            (_, Found::Missing) => fs::remove_file(rt, self.at.as_str())?,
            _ => fs::rename(rt, self.made_at.as_str(), self.at.as_str())?,
        }
        self.dir.sync_all()
    }
}

/// Sets mode and owner of a new node, and syncs it.
fn complete(file: &File, a: &Attributes) -> io::Result<()> {
    // Another owner clears the bits that set the user and the group.
    fchown(file, Some(a.uid), Some(a.gid))?;
    file.set_permissions(Permissions::from_mode(a.mode))?;
    file.sync_all()
}
