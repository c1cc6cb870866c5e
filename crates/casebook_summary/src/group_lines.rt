//! The lines of each group.
ghost use Rattle.std.specs.Prelude.{◌≡◌, ◌∷◌, ◌++◌, [], None, Some, IfOk, OnOk, not, if◌then◌else◌};
ghost use Rattle.std.specs.Option.{is_some, unwrap_or};
ghost use Rattle.casebook_summary.specs.Groups.{same_group};
ghost use Rattle.casebook_summary.specs.declared.notice.Notice.{Notice as NoticeValue};
ghost use Rattle.casebook_summary.specs.inner.GroupLines.{lines_of};

use crate::NoMem;
use crate::notice::Notice;
use crate::subject::Subject;
use std::alloc::Global;
use std::collections::BTreeMap;

/// For each session and subject, the numbers of the lines to tell the session about it, in the
/// order in which they are added.
#[derive(Drop)]
pub(crate) struct GroupLines {
    lines: BTreeMap<(u32, Subject), Vec<u32>>,
}

impl GroupLines {
    /// Returns no groups. Takes no memory.
    pub(crate) fn new(alloc: Global) -> GroupLines
        ensures { (n : NoticeValue) → lines_of result n ≡ None }
    {
        GroupLines {
            lines: BTreeMap::new(alloc),
        }
    }

    /// Adds a line to its group. Returns whether it is the first one there.
    pub(crate) fn add(&mut self, alloc: Global, notice: &Notice) -> Result<bool, NoMem>
        ensures first { IfOk result (λ first.
            first ≡ not (is_some (lines_of self.old notice.now))) }
        ensures each { OnOk result ((n : NoticeValue) → lines_of self.new n
            ≡ (if same_group notice.now n
            then Some (unwrap_or (lines_of self.old n) [] ++ notice.now.number ∷ [])
            else lines_of self.old n)) }
    {
        let group = (notice.session, notice.subject.copy()?);
        if let Some(lines) = self.lines.get_mut(&group) {
            lines.push(notice.number)?;
            return Ok(false);
        }
        let mut lines = Vec::new(alloc);
        lines.push(notice.number)?;
        self.lines.insert(group, lines)?;
        Ok(true)
    }

    /// Returns the numbers of the lines in the group of a line.
    pub(crate) fn numbers(&self, alloc: Global, notice: &Notice) -> Result<Vec<u32>, NoMem>
        ensures { IfOk result (λ numbers.
            numbers.items ≡ unwrap_or (lines_of self.now notice.now) []) }
    {
        match self.lines.get(&(notice.session, notice.subject.copy()?)) {
            Some(lines) => Vec::from_slice(alloc, lines.as_slice()),
            None => Ok(Vec::new(alloc)),
        }
    }
}
