//! The lines whose text an edit replaces.
ghost use Rattle.std.specs.Prelude.{◌≡◌, ◌||◌, false, ℕ, List, IfOk, OnOk};
ghost use Rattle.retro_keep.specs.declared.edit.Edit.{Edit as EditValue};
ghost use Rattle.casebook_view.specs.Reasons.{has_new_text, replaces};
ghost use Rattle.casebook_view.specs.inner.NewTexts.{AreNewTexts, has_number};

use crate::NoMem;
use retro_keep::Edit;
use std::alloc::Global;
use std::collections::BTreeSet;

/// The numbers of the lines whose text an edit replaces.
#[derive(Drop)]
pub(crate) struct NewTexts {
    numbers: BTreeSet<u32>,
}

impl NewTexts {
    /// Returns no numbers. Takes no memory.
    fn new(alloc: Global) -> NewTexts
        ensures { (n : ℕ) → has_number result n ≡ false }
    {
        NewTexts {
            numbers: BTreeSet::new(alloc),
        }
    }

    /// Adds the line of an edit, if the edit replaces its text.
    fn add(&mut self, edit: &Edit) -> Result<(), NoMem>
        ensures { OnOk result ((n : ℕ) → has_number self.new n
            ≡ (has_number self.old n || replaces n edit.now)) }
    {
        if let Edit::Replace(number, _) = edit {
            self.numbers.insert(*number)?;
        }
        Ok(())
    }

    /// Returns the lines whose text one of some edits replaces.
    pub(crate) fn of(alloc: Global, edits: &[Edit]) -> Result<NewTexts, NoMem>
        ensures { IfOk result (AreNewTexts edits.now) }
    {
        let mut texts = NewTexts::new(alloc);
        for edit in edits {
            texts.add(edit)?;
        }
        Ok(texts)
    }

    /// Returns whether an edit replaces the text of the line with a number.
    pub(crate) fn has(&self, number: u32) -> bool
        ensures { (edits : List EditValue) → AreNewTexts edits self.now
            → result ≡ has_new_text edits number }
    {
        self.numbers.contains(&number)
    }
}
