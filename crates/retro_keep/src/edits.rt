//! Edits by the numbers of their lines.
ghost use Rattle.std.specs.Prelude.{◌≡◌, ℕ, ◌∷◌, [], IfOk, OnOk};
ghost use Rattle.std.specs.FinMap as map_of;
ghost use Rattle.std.specs.Option.{option_copied, option_or};
ghost use Rattle.retro_keep.specs.Edit.{IsNextFrom, edit_of, text_run};

use crate::edit::Edit;
use retro_tree::{NoMem, Text};
use std::alloc::Global;
use std::collections::BTreeMap;
use std::marker::Model;

/// A borrowed edit.
#[derive(Drop)]
struct EditRef<'e> {
    edit: &'e Edit,
}

impl<'e> Model for EditRef<'e> {
    ghost use Rattle.retro_keep.specs.inner.EditCode.{coded_edit};
    ghost use Rattle.retro_keep.specs.declared.edit.Edit.{Edit};

    ghost Value = { Edit };

    ghost coded = { coded_edit };

    ghost view = { λ a. a.edit.now };
}

impl<'e> EditRef<'e> {
    /// Borrows an edit.
    fn of(edit: &'e Edit) -> EditRef<'e>
        ensures { result ≡ edit.now }
    {
        EditRef { edit }
    }

    /// Returns the edit.
    fn get(&self) -> &'e Edit
        ensures { result.now ≡ self.now }
    {
        self.edit
    }
}

/// Edits of lines, by number: at most one of each line. They are borrowed from a list.
#[derive(Drop)]
pub struct Edits<'e> {
    edits: BTreeMap<u32, EditRef<'e>>,
}

impl<'e> Model for Edits<'e> {
    ghost use Rattle.std.specs.FinMap as map_of;
    ghost use Rattle.std.specs.Ordering.{nat_cmp};
    ghost use Rattle.retro_keep.specs.inner.EditCode.{coded_edits};
    ghost use Rattle.retro_keep.specs.declared.edit.Edit.{Edit};

    ghost Value = { map_of.FinMap nat_cmp Edit };

    ghost coded = { coded_edits };

    ghost view = { λ a. map_of.from_entries a.edits.entries };
}

impl<'e> Edits<'e> {
    /// Returns the first edit of each line that edits name.
    pub fn of(alloc: Global, edits: &'e [Edit]) -> Result<Edits<'e>, NoMem>
        ensures { IfOk result (λ map. (n : ℕ) → map_of.get map n ≡ edit_of edits.now n) }
    {
        let mut first = Edits {
            edits: BTreeMap::new(alloc),
        };
        for edit in edits {
            first.add(edit)?;
        }
        Ok(first)
    }

    /// Adds an edit, unless its line has one.
    fn add(&mut self, edit: &'e Edit) -> Result<(), NoMem>
        ensures { OnOk result ((n : ℕ) → map_of.get self.new n
            ≡ option_or (map_of.get self.old n) (edit_of (edit.now ∷ []) n)) }
    {
        let number = edit.number();
        if self.edits.contains_key(&number) {
            return Ok(());
        }
        self.edits.insert(number, EditRef::of(edit))?;
        Ok(())
    }

    /// Returns the edit of the line with a number, or `None` if it has none.
    pub fn get(&self, number: u32) -> Option<&'e Edit>
        ensures { option_copied result ≡ map_of.get self.now number }
    {
        match self.edits.get(&number) {
            Some(edit) => Some(edit.get()),
            None => None,
        }
    }

    /// Returns the text that the line with a number runs in place of `text`: its new text if its
    /// text is replaced, and `text` if no edit names it. Returns `None` if the line is left out.
    pub fn text_run<'t>(&'t self, number: u32, text: &'t Text) -> Option<&'t Text>
        ensures { option_copied result ≡ text_run (map_of.get self.now number) text.now }
    {
        match self.get(number) {
            None => Some(text),
            Some(Edit::Cancel(_)) => None,
            Some(Edit::Replace(_, new)) => Some(new),
        }
    }

    /// Returns the least number of an edited line that is at least `from`, or `None` if there is
    /// none.
    pub fn next_from(&self, from: u32) -> Option<u32>
        ensures { IsNextFrom (map_of.contains_key self.now) from result }
    {
        match self.edits.range(from..).next() {
            Some((number, _)) => Some(*number),
            None => None,
        }
    }
}
