//! What observations show.
ghost use Rattle.std.specs.Prelude.{◌≡◌, ◌++◌, IfOk, OnOk, None, if◌then◌else◌, map, option_map};
ghost use Rattle.std.specs.FinMap as finmap;
ghost use Rattle.retro_path.specs.Path.{PathValue};
ghost use Rattle.casebook_watch.specs.Delta.{after_changes};
ghost use Rattle.casebook_typed.specs.Looks.{changes_in, content_in, seen_by};
ghost use Rattle.casebook_typed.specs.Observations.{notes_in};
ghost use Rattle.casebook_typed.specs.Values.{change_value, seen_value};
ghost use Rattle.casebook_typed.specs.inner.Few.{change_here, change_in, content_of, holds_in};
ghost use Rattle.casebook_typed.specs.inner.Few.{is_named, or_here};

use crate::NoMem;
use casebook_spool::{Content, Holds, Item, Note};
use casebook_watch::{Sight, SightChange, Sights, seen_between};
use retro_path::Path;
use std::alloc::Global;
use std::collections::BTreeMap;

/// A path that was changed.
#[derive(Drop)]
pub struct PathChange<'a> {
    /// The path.
    pub path: Path,
    /// Its new sight, or `None` if nothing is there any more.
    pub sight: Option<Sight>,
    /// What it holds, if the observation says so.
    pub content: Option<&'a Content>,
}

/// What was changed, read and listed.
#[derive(Drop)]
pub struct Seen<'a> {
    /// The paths that are new or were changed, in order, and then those that are gone, in order.
    pub changes: Vec<PathChange<'a>>,
    /// The files that were read, in order.
    pub read: Vec<Path>,
    /// The directories that were listed, in order.
    pub listed: Vec<Path>,
}

/// Returns what an item says that a path holds, if it says so.
fn holds_of(item: &Item) -> Option<&Holds>
    ensures { option_map (λ h. h.now) result ≡ holds_in item.now }
{
    match item {
        Item::Note(Note::Holds(holds)) => Some(holds),
        Item::Note(Note::Sight(_)) => None,
        Item::Note(Note::Looked(_)) => None,
        Item::Record(_) => None,
    }
}

/// Returns the sight that an item says of a path, if it says one.
fn change_of(item: &Item) -> Option<&SightChange>
    ensures { option_map (λ c. c.now) result ≡ change_in item.now }
{
    match item {
        Item::Note(Note::Sight(change)) => Some(change),
        Item::Note(Note::Holds(_)) => None,
        Item::Note(Note::Looked(_)) => None,
        Item::Record(_) => None,
    }
}

/// What paths hold by notes.
#[derive(Drop)]
pub(crate) struct Contents<'a> {
    by_path: BTreeMap<Path, &'a Content>,
}

impl<'a> Contents<'a> {
    /// Returns what a path holds, if a note says so.
    fn get(&self, path: &Path) -> Option<&'a Content>
        ensures { option_map (λ c. c.now) result ≡ content_of self.now path.now }
    {
        match self.by_path.get(path) {
            Some(content) => Some(*content),
            None => None,
        }
    }

    /// Adds what a path holds, unless there is something.
    fn add(&mut self, path: &Path, content: &'a Content) -> Result<(), NoMem>
        ensures { OnOk result ((p : PathValue) → content_of self.new p
            ≡ or_here (content_of self.old p) p path.now content.now) }
    {
        if self.get(path).is_none() {
            self.by_path.insert(path.copy()?, content)?;
        }
        Ok(())
    }

    /// Returns what paths hold by items.
    fn of(alloc: Global, items: &'a [Item]) -> Result<Contents<'a>, NoMem>
        ensures { IfOk result (λ all. (p : PathValue) → content_of all p
            ≡ content_in (notes_in items.now) p) }
    {
        let mut all = Contents {
            by_path: BTreeMap::new(alloc),
        };
        for item in items {
            if let Some(holds) = holds_of(item) {
                all.add(&holds.path, &holds.content)?;
            }
        }
        Ok(all)
    }
}

/// Returns the sights of the paths that items name.
fn named_sights(alloc: Global, sights: &Sights, items: &[Item]) -> Result<Sights, NoMem>
    ensures { IfOk result (λ few. (p : PathValue) → finmap.get few p
        ≡ (if is_named p (changes_in (notes_in items.now)) then finmap.get sights.now p
        else None)) }
{
    let mut few = Sights::new(alloc);
    for item in items {
        if let Some(change) = change_of(item) {
            if let Some(sight) = sights.get(&change.path) {
                few.insert(change.path.copy()?, *sight)?;
            }
        }
    }
    Ok(few)
}

/// Returns sights after the changes that items say.
fn changed_sights(sights: Sights, items: &[Item]) -> Result<Sights, NoMem>
    ensures { IfOk result (λ after. after
        ≡ after_changes sights (changes_in (notes_in items.now))) }
{
    let mut sights = sights;
    for item in items {
        if let Item::Note(Note::Sight(change)) = item {
            sights.make(change)?;
        }
    }
    Ok(sights)
}

/// Appends the changes of paths, by their sights after a look and what they hold.
fn push_changes<'a>(
    changes: &mut Vec<PathChange<'a>>,
    paths: Vec<Path>,
    after: &Sights,
    contents: &Contents<'a>,
) -> Result<(), NoMem>
    ensures { OnOk result (map change_value changes.new.items
        ≡ map change_value changes.old.items
        ++ map (change_here after.now contents.now) paths.items) }
{
    for path in paths {
        let sight = after.get(&path).copied();
        let content = contents.get(&path);
        changes.push(PathChange {
            path,
            sight,
            content,
        })?;
    }
    Ok(())
}

/// Returns what an observation shows, by the sights before it and its notes. Looks up only the
/// paths that the notes name.
pub(crate) fn seen_by<'a>(
    alloc: Global,
    before: &Sights,
    notes: &'a [Item],
) -> Result<Seen<'a>, NoMem>
    ensures { IfOk result (λ seen. seen_value seen ≡ seen_by before.now (notes_in notes.now)) }
{
    let few = named_sights(alloc, before, notes)?;
    let after = changed_sights(named_sights(alloc, before, notes)?, notes)?;
    let contents = Contents::of(alloc, notes)?;
    let seen = seen_between(alloc, &few, &after)?;
    let mut changes = Vec::new(alloc);
    push_changes(&mut changes, seen.changed, &after, &contents)?;
    push_changes(&mut changes, seen.gone, &after, &contents)?;
    Ok(Seen {
        changes,
        read: seen.read,
        listed: seen.listed,
    })
}
