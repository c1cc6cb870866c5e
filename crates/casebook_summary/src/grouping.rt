//! How lines to tell about are put into groups.
ghost use Rattle.std.specs.Prelude.{◌≡◌, List, IfOk, OnOk, length, map};
ghost use Rattle.std.specs.BTreeMap.{values};
ghost use Rattle.casebook_summary.specs.Groups.{firsts, group_of, group_value, grouped, placed};
ghost use Rattle.casebook_summary.specs.declared.notice.Notice.{Notice as NoticeValue};
ghost use Rattle.casebook_summary.specs.inner.GroupLines.{AddsOne, AreGathered, ArePlaced};

use crate::NoMem;
use crate::group::Group;
use crate::group_lines::GroupLines;
use crate::notice::Notice;
use std::alloc::Global;
use std::collections::BTreeMap;

/// Lines to tell about, gathered by group.
#[derive(Drop)]
struct Gathered {
    /// The lines of each group.
    lines: GroupLines,
    /// The first line of each group, by its session and by how many groups came before it.
    firsts: BTreeMap<(u32, usize), Notice>,
}

/// Returns a copy of a line to tell about.
fn copy_notice(notice: &Notice) -> Result<Notice, NoMem>
    ensures { IfOk result (λ copy. copy ≡ notice.now) }
{
    Ok(Notice {
        number: notice.number,
        session: notice.session,
        subject: notice.subject.copy()?,
    })
}

/// Adds a line before those of later sessions.
fn place(firsts: &mut BTreeMap<(u32, usize), Notice>, notice: &Notice) -> Result<(), NoMem>
    requires { ArePlaced (length firsts.old.entries) firsts.old.entries }
    ensures placed { OnOk result (ArePlaced (length firsts.new.entries) firsts.new.entries) }
    ensures values { OnOk result (values firsts.new ≡ placed notice.now (values firsts.old)) }
{
    let place = firsts.len();
    firsts.insert((notice.session, place), copy_notice(notice)?)?;
    Ok(())
}

impl Gathered {
    /// Adds a line.
    fn add(&mut self, alloc: Global, notice: &Notice) -> Result<(), NoMem>
        requires { ArePlaced (length self.old.firsts.entries) self.old.firsts.entries }
        ensures placed { OnOk result
            (ArePlaced (length self.new.firsts.entries) self.new.firsts.entries) }
        ensures one { OnOk result ((notices : List NoticeValue)
            → AreGathered notices self.old.lines (values self.old.firsts)
            → AddsOne notices notice.now (values self.old.firsts) self.new.lines
            (values self.new.firsts)) }
    {
        if self.lines.add(alloc, notice)? {
            return place(&mut self.firsts, notice);
        }
        Ok(())
    }
}

/// Gathers lines by group.
fn gather(alloc: Global, notices: &[Notice]) -> Result<Gathered, NoMem>
    ensures firsts { IfOk result (λ found. values found.firsts ≡ firsts notices.now) }
    ensures lines { IfOk result (λ found.
        AreGathered notices.now found.lines (values found.firsts)) }
{
    let mut gathered = Gathered {
        lines: GroupLines::new(alloc),
        firsts: BTreeMap::new(alloc),
    };
    for notice in notices {
        gathered.add(alloc, notice)?;
    }
    Ok(gathered)
}

/// Returns the first lines of groups, in order of sessions, and of each session in order.
fn in_order(alloc: Global, firsts: BTreeMap<(u32, usize), Notice>) -> Result<Vec<Notice>, NoMem>
    ensures { IfOk result (λ found. found.items ≡ values firsts) }
{
    firsts.into_values().collect(alloc)
}

/// Returns the group of a line.
fn group_of(alloc: Global, lines: &GroupLines, first: &Notice) -> Result<Group, NoMem>
    ensures { IfOk result (λ group. (notices firsts : List NoticeValue)
        → AreGathered notices lines.now firsts → group_value group ≡ group_of notices first.now) }
{
    Ok(Group {
        session: first.session,
        subject: first.subject.copy()?,
        lines: lines.numbers(alloc, first)?,
    })
}

/// Returns the groups of some lines.
fn groups_of(alloc: Global, lines: &GroupLines, firsts: &[Notice]) -> Result<Vec<Group>, NoMem>
    ensures { IfOk result (λ groups. (notices all : List NoticeValue)
        → AreGathered notices lines.now all
        → map group_value groups.items ≡ map (group_of notices) firsts.now) }
{
    let mut groups = Vec::new(alloc);
    for first in firsts {
        groups.push(group_of(alloc, lines, first)?)?;
    }
    Ok(groups)
}

/// Returns lines to tell about by session, and of each session by subject, in the order in which
/// the subjects first occur. Takes a look-up for each line and one for each group.
pub fn grouped(alloc: Global, notices: &[Notice]) -> Result<Vec<Group>, NoMem>
    ensures { IfOk result (λ groups. map group_value groups.items ≡ grouped notices.now) }
{
    let Gathered { lines, firsts } = gather(alloc, notices)?;
    let firsts = in_order(alloc, firsts)?;
    groups_of(alloc, &lines, firsts.as_slice())
}
