//! What a patch does to one file.
ghost use Rattle.std.specs.Prelude.{◌≡◌, ◌≢◌, IfOk, MatchOption};
ghost use Rattle.std.specs.Option.{option_copied};
ghost use Rattle.casebook_patch.specs.Lines.{IsText};
ghost use Rattle.casebook_patch.specs.Changes.{AreBetween, IsChangeOf, bytes_in};

use crate::NoMem;
use crate::lines::text_lines;
use crate::part::{Part, parts_of};
use retro_path::Path;
use std::alloc::Global;
use std::marker::Model;

/// What a patch does to one file: its bytes before and after, which differ.
#[derive(Drop)]
pub struct FileChange<'a> {
    pub(crate) path: Path,
    pub(crate) old: Option<&'a [u8]>,
    pub(crate) new: Option<&'a [u8]>,
    pub(crate) parts: Option<Vec<Part<'a>>>,
}

impl<'a> Model for FileChange<'a> {
    ghost use Rattle.std.specs.Prelude.{option_map};
    ghost use Rattle.std.specs.Option.{option_copied};
    ghost use Rattle.casebook_patch.specs.Changes.{ChangeValue};

    ghost Value = { ChangeValue };

    ghost view = { λ a. record {
      path = a.path;
      old = option_copied a.old;
      new = option_copied a.new;
      parts = option_map (λ parts. parts.items) a.parts;
    } };
}

/// Returns the bytes of a file. A missing one has none.
pub(crate) fn bytes_in<'a>(file: Option<&'a [u8]>) -> &'a [u8]
    ensures { result.now ≡ bytes_in (option_copied file.entry) }
{
    file.unwrap_or(&[])
}

/// Returns the parts in which two files differ, or `None` if both aren't text.
fn text_parts<'a>(
    alloc: Global,
    old: &'a [u8],
    new: &'a [u8],
) -> Result<Option<Vec<Part<'a>>>, NoMem>
    ensures { IfOk result (λ found. MatchOption found (¬ (IsText old.now × IsText new.now))
        (λ parts. AreBetween old.now new.now parts.items)) }
{
    let Some(old_lines) = text_lines(alloc, old)? else {
        return Ok(None);
    };
    let Some(new_lines) = text_lines(alloc, new)? else {
        return Ok(None);
    };
    Ok(Some(parts_of(alloc, old_lines.as_slice(), new_lines.as_slice())?))
}

impl<'a> FileChange<'a> {
    /// Returns the bytes of the file before, or `None` if there is none.
    pub fn old(&self) -> Option<&'a [u8]>
        ensures { option_copied result ≡ self.now.old }
    {
        self.old
    }

    /// Returns the bytes of the file after, or `None` if there is none.
    pub fn new(&self) -> Option<&'a [u8]>
        ensures { option_copied result ≡ self.now.new }
    {
        self.new
    }

    /// Returns what makes one file of another at a path.
    pub(crate) fn of(
        alloc: Global,
        path: Path,
        old: Option<&'a [u8]>,
        new: Option<&'a [u8]>,
    ) -> Result<FileChange<'a>, NoMem>
        requires { option_copied old ≢ option_copied new }
        ensures { IfOk result
            (IsChangeOf path (option_copied old.entry) (option_copied new.entry)) }
    {
        let parts = text_parts(alloc, bytes_in(old), bytes_in(new))?;
        Ok(FileChange {
            path,
            old,
            new,
            parts,
        })
    }
}
