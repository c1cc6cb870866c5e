//! Sessions that a summary names.
ghost use Rattle.std.specs.Prelude.{◌≡◌, IfOk};
ghost use Rattle.casebook_summary.specs.Counts.{sessions_of, sessions_told};

use crate::NoMem;
use crate::notice::Notice;
use casebook_view::CaseLine;
use std::alloc::Global;
use std::collections::BTreeSet;

/// Returns the sessions that ran lines.
pub fn sessions_of(alloc: Global, lines: &[CaseLine]) -> Result<BTreeSet<u32>, NoMem>
    ensures { IfOk result (λ sessions. sessions.keys ≡ sessions_of lines.now) }
{
    let mut sessions = BTreeSet::new(alloc);
    for line in lines {
        sessions.insert(line.session)?;
    }
    Ok(sessions)
}

/// Returns the sessions that are told something.
pub fn sessions_told(alloc: Global, notices: &[Notice]) -> Result<BTreeSet<u32>, NoMem>
    ensures { IfOk result (λ sessions. sessions.keys ≡ sessions_told notices.now) }
{
    let mut sessions = BTreeSet::new(alloc);
    for notice in notices {
        sessions.insert(notice.session)?;
    }
    Ok(sessions)
}
