//! Faults in the fields of a utility.
ghost use Rattle.std.specs.Prelude.{◌≡◌, IfOk};
ghost use Rattle.retro_text.specs.Output.{usage_text};

use retro_path::{Bytes, NoMem};
use std::alloc::{AllocFailed, Global};

/// Why the fields of a utility can't be read.
#[derive(Clone, Copy, Debug, PartialEq, Eq)]
pub enum UsageError {
    /// They aren't a form of the utility's synopsis.
    Usage,
    /// Allocation failed.
    NoMem,
}

impl From<NoMem> for UsageError {
    ghost use Rattle.retro_text.specs.declared.usage.UsageError.TheVariants as usages;

    ghost from_gives = { λ _ error. error ≡ usages.NoMem };

    fn from(_error: NoMem) -> UsageError {
        UsageError::NoMem
    }
}

impl<T: Drop> From<AllocFailed<T>> for UsageError {
    ghost use Rattle.retro_text.specs.declared.usage.UsageError.TheVariants as usages;

    ghost from_gives = { λ _ error. error ≡ usages.NoMem };

    fn from(_error: AllocFailed<T>) -> UsageError {
        UsageError::NoMem
    }
}

/// Returns what a utility prints if its fields aren't a form of its synopsis: `NAME: usage` and a
/// newline.
pub fn usage_text(alloc: Global, name: &str) -> Result<Bytes, NoMem>
    ensures { IfOk result (λ text. text ≡ usage_text name.now) }
{
    let mut text = Bytes::new(alloc);
    text.extend(name.as_bytes())?;
    text.extend(b": usage\n")?;
    Ok(text)
}
