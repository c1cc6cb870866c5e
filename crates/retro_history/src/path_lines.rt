//! The lines that list each directory.
ghost use Rattle.std.specs.Prelude.{◌≡◌, OnOk, OnErr, IsTrue};
ghost use Rattle.std.specs.FinMap as map;
ghost use Rattle.retro_history.specs.inner.Numbers.{rise};
ghost use Rattle.retro_history.specs.inner.IndexSteps.{listed_noted, numbers_at, with_line};

use crate::line_numbers::LineNumbers;
use retro_tree::{Ask, NoMem, Note, Notes, Path};
use std::alloc::Global;
use std::collections::BTreeMap;
use std::marker::Model;

/// For each listed directory, the numbers of the lines that list it.
#[derive(Drop)]
pub(crate) struct PathLines {
    lines: BTreeMap<Path, LineNumbers>,
}

impl Model for PathLines {
    ghost use Rattle.std.specs.Prelude.{List, ℕ};
    ghost use Rattle.std.specs.FinMap as map;
    ghost use Rattle.std.specs.Coded.{coded_ℕ, coded_list};
    ghost use Rattle.retro_tree.specs.Order.{path_cmp};

    ghost Value = { map.FinMap path_cmp (List ℕ) };

    ghost coded = { map.code (coded_list (coded_list coded_ℕ)) (coded_list coded_ℕ) };

    ghost view = { λ a. map.from_entries a.lines.entries };
}

impl PathLines {
    /// Returns no lines. Takes no memory.
    pub(crate) fn new(alloc: Global) -> PathLines
        ensures { result ≡ map.empty }
    {
        PathLines {
            lines: BTreeMap::new(alloc),
        }
    }

    /// Returns the numbers of the lines that list a directory, in rising order.
    pub(crate) fn numbers(&self, path: &Path) -> &[u32]
        ensures value { result.now ≡ numbers_at self.now path.now }
        ensures rise { IsTrue (rise result.now) }
    {
        match self.lines.get(path) {
            Some(numbers) => numbers.as_slice(),
            None => &[],
        }
    }

    /// Adds the listings in the notes of a line.
    pub(crate) fn add_notes(
        &mut self,
        alloc: Global,
        number: u32,
        notes: &Notes,
    ) -> Result<(), NoMem>
        ensures { OnOk result (self.new ≡ listed_noted number notes.now self.old) }
    {
        for note in notes.as_slice() {
            if let Note::Asked(Ask::Names(path), _) = note {
                self.add(alloc, path.copy()?, number)?;
            }
        }
        Ok(())
    }

    /// Adds a line that lists a path. Lines are added in rising order. A line that lists the path
    /// twice is kept once.
    fn add(&mut self, alloc: Global, path: Path, number: u32) -> Result<(), NoMem>
        ensures ok { OnOk result (self.new ≡ with_line path number self.old) }
        ensures err { OnErr result (self.new ≡ self.old) }
    {
        if let Some(numbers) = self.lines.get_mut(&path) {
            return numbers.add(number);
        }
        let mut numbers = LineNumbers::new(alloc);
        numbers.add(number)?;
        self.lines.insert(path, numbers)?;
        Ok(())
    }
}
