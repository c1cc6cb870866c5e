//! Faults of the parts of an undo file.
ghost use Rattle.std.specs.Prelude.{◌≡◌};
ghost use Rattle.casebook_undo.specs.declared.cell_fault.CellFault.TheVariants as faults;
ghost use Rattle.casebook_undo.specs.inner.Faults.{or_fault};

use crate::NoMem;
use crate::undo_fault::UndoFault;

/// Why a part of an undo file isn't read.
#[derive(Clone, Copy, Debug, Drop, PartialEq, Eq)]
pub(crate) enum CellFault {
    /// Allocation failed.
    NoMem,
    /// The value has another shape than its part has.
    WrongShape,
}

impl From<NoMem> for CellFault {
    ghost from_gives = { λ _ fault. fault ≡ faults.NoMem };

    fn from(_error: NoMem) -> CellFault {
        CellFault::NoMem
    }
}

/// Returns what was read, or `fault` in place of a wrong shape.
pub(crate) fn or_fault<T: Drop>(
    fault: UndoFault,
    read: Result<T, CellFault>,
) -> Result<T, UndoFault>
    ensures { result ≡ or_fault fault read }
{
    match read {
        Ok(value) => Ok(value),
        Err(CellFault::NoMem) => Err(UndoFault::NoMem),
        Err(CellFault::WrongShape) => Err(fault),
    }
}
