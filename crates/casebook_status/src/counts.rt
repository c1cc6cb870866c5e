//! How many lines there are of which kind.
ghost use Rattle.std.specs.Prelude.{◌≡◌, map};
ghost use Rattle.casebook_typed.specs.Values.{line_value};
ghost use Rattle.casebook_status.specs.Counts.{counts_of};

use casebook_explain::ToldLine;
use casebook_typed::TypedLine;

/// How many lines of a case are of which kind.
#[derive(Clone, Copy, Debug, Drop, PartialEq, Eq)]
pub(crate) struct Counts {
    /// All of them.
    pub(crate) lines: usize,
    /// Those that stand as they were typed.
    pub(crate) modelled: usize,
    /// Those while which others were open.
    pub(crate) overlapping: usize,
    /// The changes that no recorded line made.
    pub(crate) outside: usize,
}

/// Counts lines: as they were told, and as they were typed.
pub(crate) fn counts_of(told: &[ToldLine], typed: &[TypedLine<'_>]) -> Counts
    ensures { result ≡ counts_of told.now (map line_value typed.now) }
{
    Counts {
        lines: told.len(),
        modelled: told.iter().filter(|line| line.is_modelled).count(),
        overlapping: typed
            .iter()
            .filter(|line| !line.overlapping.is_empty())
            .count(),
        outside: told.iter().filter(|line| line.session == 0).count(),
    }
}
