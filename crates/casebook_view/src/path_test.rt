//! Tests of paths.
ghost use Rattle.std.specs.Prelude.{◌≡◌, is_some};
ghost use Rattle.std.specs.List.{list_any};
ghost use Rattle.std.specs.Option.{option_copied};
ghost use Rattle.retro_tree.specs.Path.{below, passwd};
ghost use Rattle.casebook_view.specs.inner.Names.{is_etc};
ghost use Rattle.casebook_view.specs.Filters.{fits, reads, writes};

use crate::note_paths::{is_about_users, named_path, written_path};
use retro_tree::{Note, Path};

/// A path that a filter names.
#[derive(Drop)]
pub struct PathTest {
    /// The path.
    pub path: Path,
    /// Whether the paths below it count too.
    pub below: bool,
}

impl PathTest {
    /// Returns whether a path is the one that is named, or below it if that counts too.
    pub fn fits(&self, path: &Path) -> bool
        ensures { result ≡ fits self.now path.now }
    {
        if self.below {
            path.starts_with(&self.path)
        } else {
            *path == self.path
        }
    }

    /// Returns whether `/etc/passwd` is the path that is named, or below it if that counts too.
    fn fits_passwd(&self) -> bool
        ensures { result ≡ fits self.now passwd }
    {
        if self.below {
            is_above_passwd(&self.path)
        } else {
            self.path.is_passwd()
        }
    }

    /// Returns whether a note asks about such a path.
    fn is_asked_by(&self, note: &Note) -> bool
        ensures { result ≡ reads self.now note.now }
    {
        if is_about_users(note) {
            return self.fits_passwd();
        }
        match named_path(note) {
            Some(path) => self.fits(path),
            None => false,
        }
    }

    /// Returns whether a note changes what is at such a path.
    fn is_changed_by(&self, note: &Note) -> bool
        ensures { result ≡ writes self.now note.now }
    {
        match written_path(note) {
            Some((_kind, path)) => self.fits(path),
            None => false,
        }
    }

    /// Returns whether some notes ask about such a path.
    pub(crate) fn is_read(&self, notes: &[Note]) -> bool
        ensures { result ≡ list_any (reads self.now) notes.now }
    {
        notes.iter().any(|note| self.is_asked_by(note))
    }

    /// Returns whether some notes change what is at such a path.
    pub(crate) fn is_written(&self, notes: &[Note]) -> bool
        ensures { result ≡ list_any (writes self.now) notes.now }
    {
        notes.iter().any(|note| self.is_changed_by(note))
    }
}

/// Returns whether a path is that of the password file, or above it.
#[tactic(auto, using(crate::proofs::PathLemmas::above_tested))]
fn is_above_passwd(path: &Path) -> bool
    ensures { result ≡ is_some (below path.now passwd) }
{
    path.is_root() || path.is_passwd() || is_etc(path.names().only())
}

/// Returns whether there is a name, and it is `etc`.
fn is_etc(name: Option<&str>) -> bool
    ensures { result ≡ is_etc (option_copied name.entry) }
{
    match name {
        Some(text) => text == "etc",
        None => false,
    }
}
