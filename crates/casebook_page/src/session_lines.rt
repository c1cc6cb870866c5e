//! Lines by session.
ghost use Rattle.std.specs.Prelude.{◌≡◌, ◌==◌, ◌++◌, ◌∷◌, [], ℕ, IfOk, OnOk, map};
ghost use Rattle.std.specs.List.{filter};
ghost use Rattle.casebook_page.specs.inner.SessionLines.{AreBySession, is_of, lines_at};

use crate::NoMem;
use casebook_view::CaseLine;
use std::alloc::Global;
use std::collections::BTreeMap;

/// A line with its place among all lines, from 0 on.
#[derive(Clone, Copy, Debug, PartialEq, Eq)]
pub(crate) struct Placed {
    /// The place.
    pub(crate) place: u64,
    /// The line.
    pub(crate) line: CaseLine,
}

/// The lines of each session, in order.
#[derive(Drop)]
pub(crate) struct SessionLines {
    by_session: BTreeMap<u32, Vec<Placed>>,
}

impl SessionLines {
    /// Returns no lines. Takes no memory.
    fn new(alloc: Global) -> SessionLines
        ensures { (n : ℕ) → lines_at result n ≡ [] }
    {
        SessionLines {
            by_session: BTreeMap::new(alloc),
        }
    }

    /// Adds a line.
    fn add(&mut self, alloc: Global, placed: Placed) -> Result<(), NoMem>
        ensures { OnOk result ((n : ℕ) → lines_at self.new n
            ≡ lines_at self.old n ++ filter (is_of n) (placed.line ∷ [])) }
    {
        let session = placed.line.session;
        if let Some(lines) = self.by_session.get_mut(&session) {
            lines.push(placed)?;
            return Ok(());
        }
        let mut lines = Vec::new(alloc);
        lines.push(placed)?;
        self.by_session.insert(session, lines)?;
        Ok(())
    }

    /// Returns lines by session.
    pub(crate) fn of(alloc: Global, lines: &[CaseLine]) -> Result<SessionLines, NoMem>
        ensures { IfOk result (AreBySession lines.now) }
    {
        let mut by_session = SessionLines::new(alloc);
        let mut place = 0_u64;
        for line in lines {
            by_session.add(alloc, Placed { place, line: *line })?;
            place = place.saturating_add(1);
        }
        Ok(by_session)
    }

    /// Returns the lines of a session.
    pub(crate) fn at(&self, session: u32) -> &[Placed]
        ensures { map (λ placed. placed.line) result.now ≡ lines_at self.now session }
    {
        match self.by_session.get(&session) {
            Some(lines) => lines.as_slice(),
            None => &[],
        }
    }
}
