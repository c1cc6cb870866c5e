//! Combines the results of reading several values, so that the worst refusal is returned.
ghost use Rattle.std.specs.Prelude.{◌≡◌, IfOk};
ghost use Rattle.retro_json.specs.ReadsAs.{seen};
ghost use Rattle.retro_json.specs.Worst.{both, with_item, worse};

use crate::accepted;
use crate::fault::Refusal;
use retro_tree::NoMem;

/// A value that was read, or why it is refused.
pub type OrRefusal<T> = Result<T, Refusal>;

/// Is the value of an [`OrRefusal`], or returns its refusal from a function that reads a part of a
/// document: `?` is for running out of memory there.
#[macro_export]
macro_rules! accepted {
    ($read:expr) => {
        match $read {
            Ok(value) => value,
            Err(refusal) => return Ok(Err(refusal)),
        }
    };
}

/// Returns the worse of two refusals of one part. A wrong shape is worse than bad hex, and bad hex
/// is worse than a broken limit.
fn worse(one: Refusal, two: Refusal) -> Refusal
    ensures { result ≡ worse one two }
{
    match (one, two) {
        (Refusal::WrongShape(_), _) => one,
        (Refusal::BadHex, Refusal::WrongShape(_)) => two,
        (Refusal::BadHex, _) => one,
        _ => two,
    }
}

/// Returns both values, or the worse of the refusals.
pub fn both<A: Drop, B: Drop>(one: OrRefusal<A>, two: OrRefusal<B>) -> OrRefusal<(A, B)>
    ensures { result ≡ both one two }
{
    match (one, two) {
        (Ok(one), Ok(two)) => Ok((one, two)),
        (Ok(_), Err(refusal)) => Err(refusal),
        (Err(refusal), Ok(_)) => Err(refusal),
        (Err(one), Err(two)) => Err(worse(one, two)),
    }
}

/// Returns the items with `item` appended, or the worse of the refusals.
pub fn with_item<T: Drop>(
    items: OrRefusal<Vec<T>>,
    item: OrRefusal<T>,
) -> Result<OrRefusal<Vec<T>>, NoMem>
    ensures { IfOk result (λ all. seen (λ v. v.items) all
        ≡ with_item (seen (λ v. v.items) items) item) }
{
    let (mut items, item) = accepted!(both(items, item));
    items.push(item)?;
    Ok(Ok(items))
}
