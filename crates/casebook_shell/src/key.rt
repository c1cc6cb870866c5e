//! Names as keys.
ghost use Rattle.std.specs.Prelude.{◌≡◌, IfOk};

use crate::NoMem;
use retro_path::Bytes;
use std::alloc::Global;
use std::cmp::Ordering;
use std::marker::Model;

/// The name of a function or an alias as the key of a set.
#[derive(Drop)]
pub(crate) struct Key {
    bytes: Bytes,
}

impl Model for Key {
    ghost use Rattle.std.specs.Prelude.{List, ℕ};

    ghost Value = { List ℕ };

    ghost view = { λ a. a.bytes };
}

impl Key {
    /// Returns the key of a name.
    pub(crate) fn of(alloc: Global, name: &[u8]) -> Result<Key, NoMem>
        ensures { IfOk result (λ key. key ≡ name.now) }
    {
        let mut bytes = Bytes::new(alloc);
        bytes.extend(name)?;
        Ok(Key { bytes })
    }
}

impl PartialEq for Key {
    ghost use Rattle.std.specs.Prelude.{nat_eq};
    ghost use Rattle.std.specs.Cmp.Lexicographic.{pointwise};
    ghost use Rattle.std.proofs.lemmas.Cmp.{nat_list_eq_equiv};
    ghost use Rattle.std.specs.Cmp.{partial_equiv_from_equiv};

    ghost eq = { pointwise nat_eq };

    ghost laws = { partial_equiv_from_equiv nat_list_eq_equiv };

    fn eq(&self, other: &Key) -> bool {
        self.bytes.as_slice() == other.bytes.as_slice()
    }
}

impl Eq for Key {
    ghost use Rattle.std.proofs.lemmas.Cmp.{nat_list_eq_equiv};

    ghost laws = { nat_list_eq_equiv };
}

impl PartialOrd for Key {
    ghost use Rattle.std.specs.Ordering.{nat_cmp, as_partial_cmp};
    ghost use Rattle.std.specs.Cmp.Lexicographic.{slice_cmp};
    ghost use Rattle.retro_path.specs.Order.{text_partial};

    ghost partial_cmp = { as_partial_cmp (slice_cmp nat_cmp) };

    ghost laws = { text_partial };

    fn partial_cmp(&self, other: &Key) -> Option<Ordering> {
        Some(self.cmp(other))
    }
}

impl Ord for Key {
    ghost use Rattle.std.specs.Prelude.{refl};
    ghost use Rattle.std.specs.Ordering.{nat_cmp};
    ghost use Rattle.std.specs.Cmp.Lexicographic.{slice_cmp};
    ghost use Rattle.retro_path.specs.Order.{text_total, text_ties};

    ghost cmp = { slice_cmp nat_cmp };

    ghost total = { text_total };

    ghost matches_partial_cmp = { λ x y. refl };

    ghost matches_eq = { text_ties };

    fn cmp(&self, other: &Key) -> Ordering {
        self.bytes.as_slice().cmp(other.bytes.as_slice())
    }
}
