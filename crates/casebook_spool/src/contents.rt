//! The bytes that a spool keeps.
ghost use Rattle.std.specs.Prelude.{◌≡◌, OnErr, OnOk};
ghost use Rattle.std.specs.Option.{option_copied};
ghost use Rattle.std.specs.FinMap as finmap;
ghost use Rattle.sha2.specs.Sha256.{sha256};

use crate::NoMem;
use crate::digest::Digest;
use retro_path::Bytes;
use sha2::{Digest as _, Sha256};
use std::alloc::Global;
use std::collections::BTreeMap;
use std::marker::Model;

/// The bytes that a spool keeps, each under their SHA-256 digest.
#[derive(Drop)]
pub struct Contents {
    by_digest: BTreeMap<[u8; 32], Bytes>,
}

impl Model for Contents {
    ghost use Rattle.std.specs.Prelude.{List, ℕ};
    ghost use Rattle.std.specs.FinMap as finmap;
    ghost use Rattle.std.specs.Coded.{coded_ℕ, coded_list};
    ghost use Rattle.retro_path.specs.Order.{text_cmp};

    ghost Value = { finmap.FinMap text_cmp (List ℕ) };

    ghost coded = { finmap.code (coded_list coded_ℕ) (coded_list coded_ℕ) };

    ghost view = { λ a. finmap.from_entries a.by_digest.entries };
}

impl Contents {
    /// Returns no bytes. Takes no memory.
    pub fn new(alloc: Global) -> Contents
        ensures { result ≡ finmap.empty }
    {
        Contents {
            by_digest: BTreeMap::new(alloc),
        }
    }

    /// Keeps bytes under their digest.
    pub fn add(&mut self, bytes: Bytes) -> Result<(), NoMem>
        ensures ok { OnOk result (self.new ≡ finmap.insert self.old (sha256 bytes) bytes) }
        ensures err { OnErr result (self.new ≡ self.old) }
    {
        let digest = Sha256::digest(bytes.as_slice());
        self.by_digest.insert(digest, bytes)?;
        Ok(())
    }

    /// Returns the bytes with a digest, or `None` if they aren't kept.
    pub fn get(&self, digest: &Digest) -> Option<&Bytes>
        ensures { option_copied result ≡ finmap.get self.now digest.now.bytes }
    {
        self.by_digest.get(&digest.bytes)
    }
}
