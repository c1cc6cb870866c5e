//! The lines that items choose.
ghost use Rattle.std.specs.Prelude.{◌≡◌, ◌&&◌, ◌||◌, Bool, IfOk, OnOk, map};
ghost use Rattle.std.specs.List.{filter};
ghost use Rattle.casebook_text.specs.Item.{Line};
ghost use Rattle.casebook_text.specs.Lists.{after_item, chosen, is_chosen};
ghost use Rattle.casebook_text.specs.inner.LineSets.{AreAll, IsBoth, has_line, has_pair, in_set};
ghost use Rattle.casebook_text.specs.inner.LineSets.{same_line};

use crate::NoMem;
use crate::item::Item;
use crate::line_set::LineSet;
use std::alloc::Global;
use std::collections::BTreeSet;

/// Adds a line to those that are chosen, if an item adds lines.
fn add_if(chosen: &mut BTreeSet<(u32, u32)>, line: (u32, u32), adds: bool) -> Result<(), NoMem>
    ensures { OnOk result ((other : Line) → has_pair other chosen.new.keys
        ≡ (has_pair other chosen.old.keys || (adds && same_line line other))) }
{
    if adds {
        chosen.insert(line)?;
    }
    Ok(())
}

/// Decides about those lines of the rest that an item names, and leaves the others to the items
/// before it.
fn decide(rest: &mut LineSet, chosen: &mut BTreeSet<(u32, u32)>, item: Item) -> Result<(), NoMem>
    requires { IsBoth rest.old }
    ensures both { OnOk result (IsBoth rest.new) }
    ensures decided { OnOk result ((line : Line) (before : Bool)
        → in_set before rest.new chosen.new.keys line
        ≡ in_set (after_item line before item) rest.old chosen.old.keys line) }
{
    while let Some(line) = rest.find(item.lines) {
        rest.remove(line);
        add_if(chosen, line, item.adds)?;
    }
    Ok(())
}

/// Returns which of all lines the items choose. The last item that names a line decides, so items
/// are read from the right, and each line is looked at once.
fn choose(alloc: Global, items: &[Item], all: LineSet) -> Result<BTreeSet<(u32, u32)>, NoMem>
    requires { IsBoth all }
    ensures { IfOk result (λ chosen. (line : Line) → has_pair line chosen.keys
        ≡ (has_line line all && is_chosen items.now line)) }
{
    let mut rest = all;
    let mut chosen = BTreeSet::new(alloc);
    let mut left = items;
    while let Some((last, before)) = left.split_last() {
        decide(&mut rest, &mut chosen, *last)?;
        left = before;
    }
    Ok(chosen)
}

/// Returns the numbers of those lines that are in a set.
fn numbers_in(
    alloc: Global,
    lines: &[(u32, u32)],
    set: &BTreeSet<(u32, u32)>,
) -> Result<Vec<u32>, NoMem>
    ensures { IfOk result (λ numbers. numbers.items
        ≡ map (λ line. line.0) (filter (λ line. has_pair line set.now.keys) lines.now)) }
{
    lines
        .iter()
        .filter(|line| set.contains(*line))
        .map(|line| line.0)
        .collect(alloc)
}

/// Returns the numbers of the lines that items choose, in the order of `lines`, which are all
/// lines.
pub(crate) fn chosen(
    alloc: Global,
    items: &[Item],
    lines: &[(u32, u32)],
    all: LineSet,
) -> Result<Vec<u32>, NoMem>
    requires { AreAll lines.now all }
    ensures { IfOk result (λ v. v.items ≡ chosen lines.now items.now) }
{
    let set = choose(alloc, items, all)?;
    numbers_in(alloc, lines, &set)
}
