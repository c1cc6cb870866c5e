//! The numbers of sessions: lines whose session doesn't exist, and numbers that are listed twice.
ghost use Rattle.std.specs.Prelude.{◌≡◌, ◌<◌, ◌↔◌, [], IfOk, IfSome, IsTrue, Some, ℕ, false, length, map};
ghost use Rattle.std.specs.Ordering.{nat_cmp};
ghost use Rattle.std.specs.BTreeSet.{contains};
ghost use Rattle.retro_value.specs.Borrowed.{value_data};
ghost use Rattle.casebook_check.specs.Items.{IsFirst, IsRepeat, IsStranger, has_session, line_session};

use crate::NoMem;
use crate::items::number_in;
use json::Value;
use std::alloc::Global;
use std::collections::BTreeSet;

/// Returns the numbers of sessions.
fn session_numbers(alloc: Global, rows: &[Value<'_>]) -> Result<BTreeSet<u32>, NoMem>
    ensures { IfOk result (λ sids. (q : ℕ) → contains nat_cmp sids q
        ≡ has_session (map value_data rows.now) q) }
{
    let mut sids = BTreeSet::new(alloc);
    for row in rows {
        if let Some(sid) = number_in(0, row) {
            sids.insert(sid)?;
        }
    }
    Ok(sids)
}

/// Returns whether a line has a session that isn't among these.
fn is_stranger(sids: &BTreeSet<u32>, item: &Value<'_>) -> bool
    ensures { IsTrue result ↔ ((sid : ℕ) × (line_session (value_data item.now) ≡ Some sid)
        × (contains nat_cmp sids.now sid ≡ false)) }
{
    match number_in(1, item) {
        Some(sid) => !sids.contains(&sid),
        None => false,
    }
}

/// Returns the index of the first line with a session that no row of the sessions has.
pub(crate) fn first_stranger(
    alloc: Global,
    rows: &[Value<'_>],
    items: &[Value<'_>],
) -> Result<Option<usize>, NoMem>
    ensures first { IfOk result (λ found. IfSome found (λ index.
        IsFirst (IsStranger (map value_data rows.now)) (map value_data items.now) index)) }
    ensures within { IfOk result (λ found. IfSome found (λ index. index < length items.now)) }
{
    let sids = session_numbers(alloc, rows)?;
    for (index, item) in items.iter().enumerate() {
        if is_stranger(&sids, item) {
            return Ok(Some(index));
        }
    }
    Ok(None)
}

/// Returns the index of the first row of the sessions whose number a row before it has.
pub(crate) fn first_repeat(alloc: Global, rows: &[Value<'_>]) -> Result<Option<usize>, NoMem>
    ensures first { IfOk result (λ found. IfSome found (λ index.
        IsRepeat [] (map value_data rows.now) index)) }
    ensures within { IfOk result (λ found. IfSome found (λ index. index < length rows.now)) }
{
    let mut sids = BTreeSet::new(alloc);
    for (index, row) in rows.iter().enumerate() {
        if let Some(sid) = number_in(0, row) {
            if sids.contains(&sid) {
                return Ok(Some(index));
            }
            sids.insert(sid)?;
        }
    }
    Ok(None)
}
