//! Where a spool keeps the contents of files.
use crate::place::name_in;
use crate::spool_files::CONTENTS;
use crate::temporary::temporary;
use casebook_spool::Digest;
use retro_path::NoMem;
use std::alloc::Global;
use std::fs::File;

/// How many hexadecimal digits of a digest name the directory of a content.
const FRONT: usize = 2;

/// Where the content with a digest is kept.
#[derive(Drop)]
pub(crate) struct Shelf {
    /// The directory.
    pub(crate) dir: String,
    /// The file.
    pub(crate) file: String,
    /// Its temporary name.
    pub(crate) beside: String,
}

impl Shelf {
    /// Returns where the spool in an open directory keeps the content of whose digest these are the
    /// first digits, and the rest.
    fn at(alloc: Global, root: &File, front: &str, rest: &str) -> Result<Shelf, NoMem> {
        let dir = name_in(
            alloc,
            root,
            format!(in alloc; "{CONTENTS}/{front}")?.as_str(),
        )?;
        let beside = temporary(alloc, rest)?;
        Ok(Shelf {
            file: format!(in alloc; "{}/{rest}", dir.as_str())?,
            beside: format!(in alloc; "{}/{}", dir.as_str(), beside.as_str())?,
            dir,
        })
    }

    /// Returns where the spool in an open directory keeps the content with a digest:
    /// `contents/ab/REST`.
    pub(crate) fn of(alloc: Global, root: &File, digest: &Digest) -> Result<Shelf, NoMem> {
        let digits = hex::encode(alloc, digest.bytes)?;
        match digits.as_str().split_at_checked(FRONT) {
            Some((front, rest)) => Shelf::at(alloc, root, front, rest),
            None => Shelf::at(alloc, root, "", digits.as_str()),
        }
    }
}
