//! Names that one of two listings lacks.
ghost use Rattle.std.specs.Prelude.{◌≡◌, ℕ, List, IfOk, not, option_map};
ghost use Rattle.std.specs.List.{find, list_any};
ghost use Rattle.std.specs.Option.{option_copied};
ghost use Rattle.retro_tree.specs.Order.{text_eq};
ghost use Rattle.casebook_words.specs.Difference.{first_lacking, first_name};
ghost use Rattle.casebook_words.specs.inner.Differences.{name_value};
ghost use Rattle.casebook_words.specs.inner.NameSets.{has_name};

use crate::NoMem;
use retro_tree::Name;
use std::alloc::Global;
use std::collections::BTreeSet;

/// A name that is in one of two listings alone.
#[derive(Drop)]
pub(crate) struct OtherName<'a> {
    /// The name.
    pub(crate) name: &'a Name,
    /// Whether it is in the old listing.
    pub(crate) is_old: bool,
}

/// Returns names as a set.
fn set_of<'a>(alloc: Global, names: &'a [Name]) -> Result<BTreeSet<&'a Name>, NoMem>
    ensures { IfOk result (λ set. (name : List ℕ) → has_name name set.keys
        ≡ list_any (λ other. text_eq other name) names.entry.now) }
{
    names.iter().collect(alloc)
}

/// Returns whether a set has a name.
fn is_known<'a>(known: &BTreeSet<&'a Name>, name: &'a Name) -> bool
    ensures { result ≡ has_name name.entry.now known.now.keys }
{
    known.contains(&name)
}

/// Returns the first name that a set lacks.
fn first_outside<'a>(names: &'a [Name], known: &BTreeSet<&'a Name>) -> Option<&'a Name>
    ensures { option_copied result
        ≡ find (λ name. not (has_name name known.now.keys)) names.entry.now }
{
    for name in names {
        if !is_known(known, name) {
            return Some(name);
        }
    }
    None
}

/// Returns the first name that other names lack.
fn first_lacking<'a>(
    alloc: Global,
    names: &'a [Name],
    others: &'a [Name],
) -> Result<Option<&'a Name>, NoMem>
    ensures { IfOk result (λ found. option_copied found
        ≡ first_lacking names.entry.now others.entry.now) }
{
    let known = set_of(alloc, others)?;
    Ok(first_outside(names, &known))
}

/// Returns the first name that is in the old listing alone, or else the first that is in the new
/// one alone. Puts the names of each listing in order, and takes a look-up there for each name of
/// the other.
#[tactic(auto, unfolding(crate::specs::Difference::first_name))]
pub(crate) fn first_other_name<'a>(
    alloc: Global,
    old: &'a [Name],
    new: &'a [Name],
) -> Result<Option<OtherName<'a>>, NoMem>
    ensures { IfOk result (λ found. option_map name_value found
        ≡ first_name old.entry.now new.entry.now) }
{
    if let Some(name) = first_lacking(alloc, old, new)? {
        return Ok(Some(OtherName { name, is_old: true }));
    }
    match first_lacking(alloc, new, old)? {
        Some(name) => Ok(Some(OtherName {
            name,
            is_old: false,
        })),
        None => Ok(None),
    }
}
