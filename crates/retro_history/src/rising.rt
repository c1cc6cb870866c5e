//! Searches and unions of rising lists of line numbers.
ghost use Rattle.std.specs.Prelude.{◌≡◌, IfOk, IsTrue};
ghost use Rattle.retro_history.specs.inner.Numbers.{earliest, first_above, rise, union};

use retro_tree::NoMem;
use std::alloc::Global;

/// Returns the first number above `after`, or `None` if there is none. Finds it by a binary search.
pub(crate) fn first_above(numbers: &[u32], after: u32) -> Option<u32>
    requires { IsTrue (rise numbers.now) }
    ensures { result ≡ first_above after numbers.now }
{
    let index = numbers.partition_point(|number| *number <= after);
    numbers.get(index).copied()
}

/// Returns the lesser of two numbers. If only one is there, returns that one.
pub(crate) fn earliest(one: Option<u32>, two: Option<u32>) -> Option<u32>
    ensures { result ≡ earliest one two }
{
    match (one, two) {
        (Some(one), Some(two)) => Some(one.min(two)),
        (Some(only), None) | (None, Some(only)) => Some(only),
        (None, None) => None,
    }
}

/// Returns the numbers of two lists, in rising order, each once.
pub(crate) fn merge(alloc: Global, one: &[u32], two: &[u32]) -> Result<Vec<u32>, NoMem>
    requires one { IsTrue (rise one.now) }
    requires two { IsTrue (rise two.now) }
    ensures { IfOk result (λ merged. merged.items ≡ union one.now two.now) }
{
    let mut merged = Vec::new(alloc);
    let (mut i, mut j) = (0, 0);
    while i < one.len() && j < two.len() {
        let (x, y) = (one[i], two[j]);
        merged.push(x.min(y))?;
        i += usize::from(x <= y);
        j += usize::from(y <= x);
    }
    merged.extend_from_slice(&one[i..])?;
    merged.extend_from_slice(&two[j..])?;
    Ok(merged)
}
