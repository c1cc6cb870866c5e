//! Borrowed values with bytes appended.
ghost use Rattle.std.specs.Prelude.{◌≡◌, ◌↔◌, IsTrue};
ghost use Rattle.std.specs.Option.{option_copied};
ghost use Rattle.retro_tree.specs.Overlay.{combined_value};
ghost use Rattle.retro_tree.specs.ValueRef.{ref_value};
ghost use Rattle.retro_difference.specs.inner.GrownRef.{grown_ref_value};

use crate::bytes::same_in_parts;
use retro_tree::{OverlayEntry, ValueRef};

/// A borrowed value. If it is a file, `end` follows its bytes.
#[derive(Clone, Copy)]
pub(crate) struct GrownRef<'a> {
    value: ValueRef<'a>,
    end: &'a [u8],
}

impl<'a> GrownRef<'a> {
    /// Combines a value and an overlay's entry for its cell. Takes no memory.
    pub(crate) fn combine(value: ValueRef<'a>, entry: Option<&'a OverlayEntry>) -> GrownRef<'a>
        ensures { grown_ref_value result
            ≡ combined_value (option_copied entry.entry) (ref_value value.entry) }
    {
        match entry {
            None => GrownRef { value, end: &[] },
            Some(OverlayEntry::Value(value)) => GrownRef {
                value: ValueRef::of(value),
                end: &[],
            },
            Some(OverlayEntry::Growth(bytes)) => match value {
                ValueRef::Missing => GrownRef {
                    value: ValueRef::File(bytes.as_slice()),
                    end: &[],
                },
                ValueRef::File(old) => GrownRef {
                    value: ValueRef::File(old),
                    end: bytes.as_slice(),
                },
                other => GrownRef {
                    value: other,
                    end: &[],
                },
            },
        }
    }

    /// Returns whether this value equals another.
    #[tactic(auto, using(retro_tree::proofs::Sames::sames))]
    pub(crate) fn is_same(self, other: GrownRef<'_>) -> bool
        ensures { IsTrue result ↔ (grown_ref_value self.entry ≡ grown_ref_value other.entry) }
    {
        match (self.value, other.value) {
            (ValueRef::Missing, ValueRef::Missing)
            | (ValueRef::Dir, ValueRef::Dir)
            | (ValueRef::Unset, ValueRef::Unset)
            | (ValueRef::Root, ValueRef::Root) => true,
            (ValueRef::Cwd(path), ValueRef::Root) | (ValueRef::Root, ValueRef::Cwd(path)) => {
                path.is_root()
            }
            (ValueRef::File(x), ValueRef::File(y)) => same_in_parts(x, self.end, y, other.end),
            (ValueRef::Cwd(x), ValueRef::Cwd(y)) => x == y,
            (ValueRef::Text(x), ValueRef::Text(y)) => x == y,
            (ValueRef::Status(x), ValueRef::Status(y)) => x == y,
            _ => false,
        }
    }
}
