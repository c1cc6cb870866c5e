//! The versions of one cell.
ghost use Rattle.std.specs.Prelude.{◌≡◌, ◌++◌, ◌∷◌, [], IfOk, OnOk, OnErr, map, nat_lt};
ghost use Rattle.std.specs.Prelude.{option_map};
ghost use Rattle.retro_tree.specs.ValueRef.{ref_value};
ghost use Rattle.retro_history.specs.inner.Tracks.{RiseFrom, all_versions, checkpoint_numbers};
ghost use Rattle.retro_history.specs.inner.Tracks.{new_track};
ghost use Rattle.retro_history.specs.inner.Tracks.{track_changed, version_below, before_line};
ghost use Rattle.retro_history.specs.inner.Tracks.{track_by, whole_version};
ghost use Rattle.retro_history.specs.inner.Tracks.{version_grown, version_of_line};
ghost use Rattle.retro_tree.specs.declared.value.Value.TheVariants.{Node as NodeValue};
ghost use Rattle.retro_history.specs.inner.History.{version_parts, version_ref_parts};

use crate::place::ValuePlace;
use crate::version::Version;
use crate::version_ref::VersionRef;
use retro_tree::{Change, NoMem, Node, ValueRef};
use std::alloc::Global;
use std::marker::Model;

/// The versions of one cell, in order. The first one has the number 0.
///
/// Values are borrowed from the recording. Only a file that grows is copied, into a buffer in which
/// it grows. Each of its versions is a range of the buffer.
#[derive(Drop)]
pub(crate) struct Track<'a> {
    earlier: Vec<Version<'a>>,
    last: Version<'a>,
    buffer: Vec<u8>,
}

impl<'a> Model for Track<'a> {
    ghost use Rattle.std.specs.Prelude.{map};
    ghost use Rattle.retro_history.specs.inner.Tracks.{TrackValue};
    ghost use Rattle.retro_history.specs.inner.TrackCode.{coded_track};

    ghost Value = { TrackValue };

    ghost coded = { coded_track };

    ghost use Rattle.retro_history.specs.inner.Version.{RangesFit, version_value};

    ghost view = { λ a. record {
      earlier = map (version_value a.buffer.items) a.earlier.items;
      last = version_value a.buffer.items a.last;
    } };

    ghost invariant = { λ a. RangesFit a.earlier.items a.last a.buffer.items };
}

impl<'a> Track<'a> {
    /// Returns a track with the first version alone. Takes no memory.
    pub(crate) fn new(alloc: Global, first: ValueRef<'a>) -> Track<'a>
        ensures { result ≡ new_track (ref_value first.entry) }
    {
        Track {
            earlier: Vec::new(alloc),
            last: Version {
                number: 0,
                checkpoint: 0,
                growths: 0,
                place: ValuePlace::Borrowed(first),
            },
            buffer: Vec::new(alloc),
        }
    }

    /// Applies the changes of the cell by a line, in order. `number` is the line's, and at least
    /// that of the last version.
    pub(crate) fn apply_all(&mut self, number: u32, changes: &[&'a Change]) -> Result<(), NoMem>
        ensures { OnOk result (self.new
            ≡ track_by number (map (λ change. change.now) changes.now) self.old) }
    {
        for change in changes {
            self.apply(number, change)?;
        }
        Ok(())
    }

    /// Applies a change of the cell by a line. `number` is the line's, and at least that of the
    /// last version.
    fn apply(&mut self, number: u32, change: &'a Change) -> Result<(), NoMem>
        ensures { OnOk result (self.new ≡ track_changed number change.now self.old) }
    {
        match change {
            Change::Grow(_, bytes) => self.grow(number, bytes.as_slice()),
            Change::Put(_, node) => self.put(number, node_ref(node)),
            Change::SetVar(_, _, text) => self.put(number, ValueRef::Text(text)),
            Change::SetCwd(_, path) => self.put(number, ValueRef::Cwd(path)),
            Change::SetStatus(_, status) => self.put(number, ValueRef::Status(*status)),
        }
    }

    /// Makes a whole value the version of the line with the given number. It is a checkpoint.
    fn put(&mut self, number: u32, value: ValueRef<'a>) -> Result<(), NoMem>
        ensures { OnOk result (self.new ≡ record {
          earlier = before_line number self.old;
          last = whole_version number (ref_value value.entry);
        }) }
    {
        if self.last.number != number {
            push(&mut self.earlier, self.last)?;
        }
        self.last = Version {
            number,
            checkpoint: number,
            growths: 0,
            place: ValuePlace::Borrowed(value),
        };
        Ok(())
    }

    /// Appends bytes to the version of the line with the given number. If the line has no version
    /// yet, its version starts with the value of the last one.
    fn grow(&mut self, number: u32, more: &[u8]) -> Result<(), NoMem>
        ensures { OnOk result (self.new ≡ record {
          earlier = before_line number self.old;
          last = version_grown more.now (version_of_line number self.old.last);
        }) }
    {
        self.open_version(number)?;
        self.extend_last(more)
    }

    /// Starts the version of a line that grows the cell, if the line has no version yet. The new
    /// version has the value of the last one.
    fn open_version(&mut self, number: u32) -> Result<(), NoMem>
        ensures { OnOk result (self.new ≡ record {
          earlier = before_line number self.old;
          last = version_of_line number self.old.last;
        }) }
    {
        if self.last.number != number {
            push(&mut self.earlier, self.last)?;
            self.last = self.last.next(number);
        }
        Ok(())
    }

    /// Appends bytes to the value of the last version.
    fn extend_last(&mut self, more: &[u8]) -> Result<(), NoMem>
        ensures { OnOk result
            (self.new ≡ record self.old { last = version_grown more.now self.old.last }) }
    {
        self.last.place = self.last.place.extend(&mut self.buffer, more)?;
        Ok(())
    }

    /// Returns the last version with a number below `number`, or `None` if there is none. Finds it
    /// by a binary search.
    pub(crate) fn version_below(&self, number: u32) -> Option<VersionRef<'_>>
        requires { RiseFrom 0 (all_versions self.now) }
        ensures { option_map version_ref_parts result
            ≡ option_map version_parts (version_below number self.now) }
    {
        if self.last.number < number {
            return Some(self.last.to_ref(&self.buffer));
        }
        let earlier = self.earlier.as_slice();
        let count = earlier.partition_point(
            |version: &Version<'_>| -> bool
                ensures { result ≡ nat_lt version.now.number number }
            { version.number < number },
        );
        if count == 0 {
            return None;
        }
        Some(earlier[count - 1].to_ref(&self.buffer))
    }

    /// Returns the numbers of the checkpoints, in rising order.
    pub(crate) fn checkpoints(&self, alloc: Global) -> Result<Vec<u32>, NoMem>
        ensures { IfOk result (λ numbers.
            numbers.items ≡ checkpoint_numbers (all_versions self.now)) }
    {
        let mut numbers = Vec::new(alloc);
        for version in &self.earlier {
            if version.growths == 0 {
                numbers.push(version.number)?;
            }
        }
        if self.last.growths == 0 {
            numbers.push(self.last.number)?;
        }
        Ok(numbers)
    }
}

/// Appends a version. The first one is allocated exactly, since most cells have few versions.
fn push<'a>(versions: &mut Vec<Version<'a>>, version: Version<'a>) -> Result<(), NoMem>
    ensures ok { OnOk result (versions.new.items ≡ versions.old.items ++ version.entry ∷ []) }
    ensures err { OnErr result (versions.new.items ≡ versions.old.items) }
{
    if versions.is_empty() {
        versions.reserve_exact(1)?;
    }
    versions.push(version)?;
    Ok(())
}

/// Borrows a node.
fn node_ref(node: &Node) -> ValueRef<'_>
    ensures { ref_value result ≡ NodeValue node.now }
{
    match node {
        Node::Missing => ValueRef::Missing,
        Node::Dir => ValueRef::Dir,
        Node::File(bytes) => ValueRef::File(bytes.as_slice()),
    }
}
