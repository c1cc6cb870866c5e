//! The paths that a repair alters.
ghost use Rattle.std.specs.Prelude.{◌≡◌, ◌||◌, ◌∷◌, [], IfOk, OnOk, is_some, length};
ghost use Rattle.std.specs.List.{list_any};
ghost use Rattle.std.specs.Option.{option_copied};
ghost use Rattle.retro_tree.specs.Path.{PathValue, below};
ghost use Rattle.retro_redo.specs.inner.Altered.{altered_by, altered_paths, changed_path};
ghost use Rattle.retro_redo.specs.inner.Altered.{changed_paths, has_path, is_near, kept_by};
ghost use Rattle.retro_redo.specs.inner.Altered.{kept_paths};
ghost use Rattle.retro_redo.specs.inner.Altered.{keeps_near};

use crate::step::Step;
use retro_keep::Noted;
use retro_tree::{NoMem, Note, Notes, Path};
use std::alloc::Global;
use std::collections::BTreeSet;
use std::marker::Model;

/// The paths that are changed by lines that the repair doesn't keep.
///
/// A cancelled line alters the paths that its recorded notes change. A line that is run again
/// alters those paths and the paths that the notes of its new run change. At every other path the
/// recorded and the repaired state have the same node.
#[derive(Drop)]
struct AlteredPaths {
    paths: BTreeSet<Path>,
}

impl Model for AlteredPaths {
    ghost use Rattle.std.specs.Prelude.{List};
    ghost use Rattle.retro_tree.specs.Path.{PathValue};
    ghost use Rattle.retro_redo.specs.inner.AlteredCode.{coded_paths};

    ghost Value = { List PathValue };

    ghost coded = { coded_paths };

    ghost view = { λ a. a.paths.keys };
}

impl AlteredPaths {
    /// Returns the paths that the lines alter. `choices` has the step of each line.
    fn of(alloc: Global, lines: &[(u32, Noted)], choices: &[Step]) -> Result<AlteredPaths, NoMem>
        requires { length choices.now ≡ length lines.now }
        ensures { IfOk result (λ altered. (p : PathValue)
            → has_path p altered ≡ has_path p (altered_paths lines.now choices.now)) }
    {
        let mut altered = AlteredPaths {
            paths: BTreeSet::new(alloc),
        };
        for i in 0..lines.len() {
            altered.add_line(&lines[i], &choices[i])?;
        }
        Ok(altered)
    }

    /// Adds the paths that a line alters if `step` is its step.
    fn add_line(&mut self, line: &(u32, Noted), step: &Step) -> Result<(), NoMem>
        ensures { OnOk result ((p : PathValue) → has_path p self.new
            ≡ (has_path p self.old || has_path p (altered_by line.now step.now))) }
    {
        match step {
            Step::Cancel => self.add_changed(&line.1.notes),
            Step::Keep => Ok(()),
            Step::Take(run) => {
                self.add_changed(&line.1.notes)?;
                self.add_changed(run.notes())
            }
        }
    }

    /// Adds the paths that notes change.
    fn add_changed(&mut self, notes: &Notes) -> Result<(), NoMem>
        ensures { OnOk result ((p : PathValue) → has_path p self.new
            ≡ (has_path p self.old || has_path p (changed_paths notes.now))) }
    {
        for note in notes.as_slice() {
            if let Some(path) = changed_path(note) {
                self.add(path)?;
            }
        }
        Ok(())
    }

    /// Adds a path. Copies it only if it is new.
    fn add(&mut self, path: &Path) -> Result<(), NoMem>
        ensures { OnOk result ((p : PathValue)
            → has_path p self.new ≡ (has_path p self.old || has_path p (path.now ∷ []))) }
    {
        if !self.paths.contains(path) {
            self.paths.insert(path.copy()?)?;
        }
        Ok(())
    }

    /// Returns whether a path, its parent, or a path below it is altered.
    fn is_near(&self, alloc: Global, path: &Path) -> Result<bool, NoMem>
        ensures { IfOk result (λ near. near ≡ is_near self.now path.now) }
    {
        if self.has_below(path) {
            return Ok(true);
        }
        let parent = path.parent(alloc)?;
        Ok(self.paths.contains(&parent))
    }

    /// Returns whether a path or a path below it is altered. In the order of the set, the paths
    /// below a path follow it directly. So the first altered path that isn't ordered before `path`
    /// decides.
    fn has_below(&self, path: &Path) -> bool
        ensures { result ≡ list_any (λ q. is_some (below path.now q)) self.now }
    {
        match self.paths.range(path..).next() {
            Some(next) => next.starts_with(path),
            None => false,
        }
    }

    /// Returns whether notes change a path near an altered one.
    fn is_any_near(&self, alloc: Global, notes: &Notes) -> Result<bool, NoMem>
        ensures { IfOk result (λ near.
            near ≡ list_any (is_near self.now) (changed_paths notes.now)) }
    {
        for note in notes.as_slice() {
            if let Some(path) = changed_path(note) {
                if self.is_near(alloc, path)? {
                    return Ok(true);
                }
            }
        }
        Ok(false)
    }

    /// Returns whether a line is kept and changes a path near an altered one.
    fn is_line_near(&self, alloc: Global, line: &(u32, Noted), step: &Step) -> Result<bool, NoMem>
        ensures { IfOk result (λ near.
            near ≡ list_any (is_near self.now) (kept_by line.now step.now)) }
    {
        match step {
            Step::Keep => self.is_any_near(alloc, &line.1.notes),
            Step::Cancel | Step::Take(_) => Ok(false),
        }
    }

    /// Returns whether some kept line changes a path near an altered one.
    fn is_kept_near(
        &self,
        alloc: Global,
        lines: &[(u32, Noted)],
        choices: &[Step],
    ) -> Result<bool, NoMem>
        requires { length choices.now ≡ length lines.now }
        ensures { IfOk result (λ near.
            near ≡ list_any (is_near self.now) (kept_paths lines.now choices.now)) }
    {
        for i in 0..lines.len() {
            if self.is_line_near(alloc, &lines[i], &choices[i])? {
                return Ok(true);
            }
        }
        Ok(false)
    }
}

/// Returns the path whose node a note changes, or `None` if the note changes no node.
fn changed_path(note: &Note) -> Option<&Path>
    ensures { option_copied result ≡ changed_path note.now }
{
    match note {
        Note::Made(change) => change.cell().path(),
        Note::Asked(..) => None,
    }
}

/// Returns whether some kept line changes a path near one that the repair alters. A path is near an
/// altered one if it, its parent, or a path below it is altered.
///
/// If the answer is no, each change of a kept line is lawful in the repaired state because it was
/// lawful where it was recorded: the node at its path, the node at the parent and the nodes below
/// are the same in both states.
pub(crate) fn keeps_near(
    alloc: Global,
    lines: &[(u32, Noted)],
    choices: &[Step],
) -> Result<bool, NoMem>
    requires { length choices.now ≡ length lines.now }
    ensures { IfOk result (λ near. near ≡ keeps_near lines.now choices.now) }
{
    let altered = AlteredPaths::of(alloc, lines, choices)?;
    altered.is_kept_near(alloc, lines, choices)
}
