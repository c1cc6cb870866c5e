//! What happens to one cell's entry of an exact overlay over a line.
ghost use Rattle.std.specs.Prelude.{◌≡◌, ◌≢◌, ◌↔◌, ◌++◌, ℕ, List, Some, IfOk, IsTrue};
ghost use Rattle.std.specs.Option.{option_copied};
ghost use Rattle.retro_tree.specs.Cell.{value as value_at};
ghost use Rattle.retro_tree.specs.Overlay.{combined_value};
ghost use Rattle.retro_tree.specs.Exact.{IsDifference};
ghost use Rattle.retro_tree.specs.declared.overlay_entry.OverlayEntry.TheVariants as OverlayEntry;
ghost use Rattle.retro_tree.specs.ValueRef.{ref_value};
ghost use Rattle.retro_difference.specs.inner.Write.{entry_after, decided_entry};
ghost use Rattle.retro_difference.specs.inner.Decision.{Appends, differ_by_empty_file};

use crate::bytes::{same_bytes, same_in_parts};
use crate::grown_ref::GrownRef;
use crate::write::Write;
use retro_tree::{Cell, Cells, NoMem, Node, OverlayEntry, Value, ValueRef};
use std::alloc::Global;

/// Returns the bytes that an effect appends to a file, or `None` if it sets a value. If there is no
/// effect, returns no bytes.
fn appended<'a>(effect: Option<&'a OverlayEntry>) -> Option<&'a [u8]>
    ensures { Appends (option_copied result) (option_copied effect.entry) }
{
    match effect {
        None => Some(&[]),
        Some(OverlayEntry::Growth(bytes)) => Some(bytes.as_slice()),
        Some(OverlayEntry::Value(_)) => None,
    }
}

/// Returns whether a file stays the same file whichever of two ends is appended to it. The file
/// isn't read, since it is enough to compare the ends.
fn same_ends(end: &[u8], other: &[u8]) -> bool
    ensures { (file : List ℕ) → IsTrue result ↔ (file ++ end.now ≡ file ++ other.now) }
{
    same_bytes(end, other)
}

/// Returns whether two files that differ become equal when an end is appended to each. Files of the
/// same length never do, and then nothing is read.
#[tactic(auto, using(crate::proofs::TwoParts::apart))]
fn become_same(file: &[u8], end: &[u8], other: &[u8], other_end: &[u8]) -> bool
    requires { file.now ≢ other.now }
    ensures { IsTrue result ↔ (file.now ++ end.now ≡ other.now ++ other_end.now) }
{
    file.len() != other.len() && same_in_parts(file, end, other, other_end)
}

/// Returns whether two values are equal after an effect on each.
fn same_after(
    value: ValueRef<'_>,
    effect: Option<&OverlayEntry>,
    other: ValueRef<'_>,
    other_effect: Option<&OverlayEntry>,
) -> bool
    ensures { IsTrue result
        ↔ (combined_value (option_copied effect.entry) (ref_value value.entry)
        ≡ combined_value (option_copied other_effect.entry) (ref_value other.entry)) }
{
    GrownRef::combine(value, effect).is_same(GrownRef::combine(other, other_effect))
}

/// Returns whether a cell has the same value in both states after a line. `value` is its recorded
/// value before the line, `entry` its entry in the overlay, and `recorded` and `chosen` are the
/// effects of the line on it in the recorded and in the repaired state. Files that only grow are
/// read as little as possible.
#[tactic(auto, using(crate::proofs::Decisions::growths))]
fn agree(
    value: ValueRef<'_>,
    entry: Option<&OverlayEntry>,
    recorded: Option<&OverlayEntry>,
    chosen: Option<&OverlayEntry>,
) -> bool
    requires { let was = ref_value value in let over = option_copied entry in
        IsDifference over was (combined_value over was) }
    ensures { let was = ref_value value.entry in
        IsTrue result ↔ (combined_value (option_copied recorded.entry) was
        ≡ combined_value (option_copied chosen.entry)
        (combined_value (option_copied entry.entry) was)) }
{
    if let (ValueRef::File(file), Some(end), Some(other_end)) = (
        value,
        appended(recorded),
        appended(chosen),
    ) {
        match entry {
            None => return same_ends(end, other_end),
            Some(OverlayEntry::Value(Value::Node(Node::File(other)))) => {
                return become_same(file, end, other.as_slice(), other_end);
            }
            Some(_) => {}
        }
    }
    match entry {
        Some(OverlayEntry::Value(other)) => {
            same_after(value, recorded, ValueRef::of(other), chosen)
        }
        _ => same_after(value, recorded, value, chosen),
    }
}

/// Returns the write after which a cell's entry is the cell's value in the repaired state after a
/// line.
fn write_of(
    alloc: Global,
    value: ValueRef<'_>,
    entry: Option<&OverlayEntry>,
    chosen: Option<OverlayEntry>,
) -> Result<Write, NoMem>
    requires { let was = ref_value value in let over = option_copied entry in
        IsDifference over was (combined_value over was) }
    ensures { let was = ref_value value.entry in let over = option_copied entry.entry in
        IfOk result (λ write. entry_after write over
        ≡ Some (OverlayEntry.Value (combined_value chosen (combined_value over was)))) }
{
    match (chosen, entry) {
        (Some(OverlayEntry::Value(value)), _) => Ok(Write::Set(value)),
        (Some(OverlayEntry::Growth(bytes)), Some(_)) => Ok(Write::Grow(bytes)),
        (Some(OverlayEntry::Growth(bytes)), None) => {
            let mut copy = value.to_value(alloc)?;
            copy.grow(&bytes)?;
            Ok(Write::Set(copy))
        }
        (None, Some(_)) => Ok(Write::Keep),
        (None, None) => Ok(Write::Set(value.to_value(alloc)?)),
    }
}

/// Decides what happens to a cell's entry of an exact overlay over a line, so that the overlay is
/// exact again. Returns the write to make, or `None` if the entry is to be removed because the
/// states agree in the cell after the line.
///
/// `value` is the cell's recorded value before the line, and `entry` its entry. The line has the
/// effect `recorded` on the cell in the recorded state, and `chosen` in the repaired one.
#[tactic(auto, using(crate::proofs::Decisions::deciding))]
pub(crate) fn decide(
    alloc: Global,
    value: ValueRef<'_>,
    entry: Option<&OverlayEntry>,
    recorded: Option<&OverlayEntry>,
    chosen: Option<OverlayEntry>,
) -> Result<Option<Write>, NoMem>
    requires { let was = ref_value value in let over = option_copied entry in
        IsDifference over was (combined_value over was) }
    ensures { let was = ref_value value.entry in let over = option_copied entry.entry in
        IfOk result (λ write. IsDifference (decided_entry write over)
        (combined_value (option_copied recorded.entry) was)
        (combined_value chosen (combined_value over was))) }
{
    if agree(value, entry, recorded, chosen.as_ref()) {
        return Ok(None);
    }
    Ok(Some(write_of(alloc, value, entry, chosen)?))
}

/// Returns whether a cell's entry and its recorded value are a missing node and an empty file, in
/// either order. The recorded value is looked up only if the entry is one of these.
fn differ_by_empty_file<C: Cells>(cells: &C, cell: &Cell, entry: &OverlayEntry) -> bool
    requires { let was = value_at cell.now (C.state cells.now) in
        IsDifference (Some entry.now) was (combined_value (Some entry.now) was) }
    ensures { let was = value_at cell.now (C.state cells.now) in
        result ≡ differ_by_empty_file was (combined_value (Some entry.now) was) }
{
    match entry {
        OverlayEntry::Value(Value::Node(Node::Missing)) => match cells.get(cell) {
            ValueRef::File(bytes) => bytes.is_empty(),
            _ => false,
        },
        OverlayEntry::Value(Value::Node(Node::File(bytes))) => {
            bytes.is_empty() && matches!(cells.get(cell), ValueRef::Missing)
        }
        _ => false,
    }
}

/// Decides what happens to a cell's entry of an exact overlay over a line that has the same effect
/// on the cell in both states. Returns the write to make, or `None` if the entry is to be removed
/// because the states agree in the cell after the line. Takes no memory.
///
/// A value that is set is the same in both states. Files that differ still differ when the same
/// bytes are appended to them. Only an empty file and a missing one become the same.
#[tactic(auto, using(crate::proofs::Decisions::deciding_both))]
pub(crate) fn decide_both<C: Cells>(
    cells: &C,
    cell: &Cell,
    entry: &OverlayEntry,
    effect: OverlayEntry,
) -> Option<Write>
    requires { let was = value_at cell.now (C.state cells.now) in
        IsDifference (Some entry.now) was (combined_value (Some entry.now) was) }
    ensures { let was = value_at cell.now (C.state cells.now) in
        IsDifference (decided_entry result (Some entry.now)) (combined_value (Some effect) was)
        (combined_value (Some effect) (combined_value (Some entry.now) was)) }
{
    match effect {
        OverlayEntry::Value(_) => None,
        OverlayEntry::Growth(bytes) => {
            if differ_by_empty_file(cells, cell, entry) {
                return None;
            }
            Some(Write::Grow(bytes))
        }
    }
}
