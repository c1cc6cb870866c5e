//! Children of directories.
ghost use Rattle.std.specs.Prelude.{◌≡◌, IfOk};
ghost use Rattle.casebook_snapshot.specs.Children.{child_path};

use crate::NoMem;
use crate::reason::Reason;
use retro_path::{NAME_LIMIT, Name, Path};
use std::alloc::Global;
use std::str::from_utf8;

/// A name in a directory. It needn't be UTF-8.
#[derive(Drop)]
pub struct Child {
    /// The directory.
    pub parent: Path,
    /// The bytes of the name.
    pub name: Vec<u8>,
}

/// The path of a child, or the reason why it has none.
#[derive(Drop)]
pub enum ChildPath {
    /// The path.
    Is(Path),
    /// No path has such a name.
    Never(Reason),
}

impl Child {
    /// Returns a copy.
    pub fn copy(&self) -> Result<Child, NoMem>
        ensures parent { IfOk result (λ copy. copy.parent ≡ self.now.parent) }
        ensures name { IfOk result (λ copy. copy.name.items ≡ self.now.name.items) }
    {
        Ok(Child {
            parent: self.parent.copy()?,
            name: self.name.clone()?,
        })
    }

    /// Returns the path of the child, or the reason to skip it that follows from its name.
    #[tactic(auto, using(crate::proofs::Names::names))]
    pub fn path(&self, alloc: Global) -> Result<ChildPath, NoMem>
        ensures { IfOk result (λ path. path ≡ child_path self.now) }
    {
        if self.name.len() > NAME_LIMIT {
            return Ok(ChildPath::Never(Reason::NameTooLong));
        }
        if self.name.as_slice().contains(&0) {
            return Ok(ChildPath::Never(Reason::OddName));
        }
        let Ok(text) = from_utf8(self.name.as_slice()) else {
            return Ok(ChildPath::Never(Reason::OddName));
        };
        match Name::of(String::from_str(alloc, text)?) {
            Some(name) => Ok(ChildPath::Is(self.parent.child(alloc, &name)?)),
            None => Ok(ChildPath::Never(Reason::OddName)),
        }
    }
}
