//! Faults of tables.
ghost use Rattle.std.specs.Prelude.{◌≡◌};
ghost use Rattle.casebook_script.specs.declared.fault.TableFault.TheVariants as faults;

use crate::NoMem;
use std::alloc::AllocFailed;

/// A table of a script.
#[derive(Clone, Copy, Debug, Drop, PartialEq, Eq)]
pub enum Table {
    /// The table of sessions.
    Sessions,
    /// The table of lines.
    Lines,
}

/// Why a row isn't one of its table. If several apply to a row, it is the first in this order.
#[derive(Clone, Copy, Debug, Drop, PartialEq, Eq)]
pub enum RowFault {
    /// A backslash isn't followed by `t`, `n`, `r` or another backslash.
    Escape,
    /// A row of sessions has fewer than two cells, or a row of lines doesn't have exactly two.
    Cells,
    /// The first cell isn't a decimal number of 32 bits without a sign and without leading zeros.
    Number,
    /// The directory isn't a path from the root, as scripts write it.
    Directory,
    /// A cell of a variable isn't a name that a line may assign, followed by `=` and a value.
    Variable,
    /// The value of a variable has more than `VALUE_LIMIT` bytes.
    TooLong,
    /// A variable is listed twice in the row.
    VariableTwice,
    /// An earlier row has the same session.
    SessionTwice,
    /// The session of a line isn't in the table of sessions.
    UnknownSession,
    /// The line's number would be over 4,294,967,295.
    TooManyLines,
}

/// Why tables don't make a script, or why reading them failed.
#[derive(Clone, Copy, Debug, Drop, PartialEq, Eq)]
pub enum TableFault {
    /// Allocation failed.
    NoMem,
    /// The bytes of a table aren't UTF-8.
    NotUtf8(Table),
    /// A row isn't one of its table.
    BadRow {
        /// The table that the row is in.
        table: Table,
        /// The row's place in the table, where rows that are skipped count too. The first is 1.
        row: usize,
        /// Why the row isn't one of its table.
        why: RowFault,
    },
}

impl From<NoMem> for TableFault {
    ghost from_gives = { λ _ fault. fault ≡ faults.NoMem };

    fn from(_error: NoMem) -> TableFault {
        TableFault::NoMem
    }
}

impl<T: Drop> From<AllocFailed<T>> for TableFault {
    ghost from_gives = { λ _ fault. fault ≡ faults.NoMem };

    fn from(_error: AllocFailed<T>) -> TableFault {
        TableFault::NoMem
    }
}
