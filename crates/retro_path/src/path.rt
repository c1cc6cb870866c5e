//! Paths.
ghost use Rattle.std.specs.Prelude.{◌≡◌, ◌++◌, ◌∷◌, [], IfOk, IsTrue, MatchOption, is_some};
ghost use Rattle.std.specs.Prelude.{string_bytes, false, length, map, ◌<◌};
ghost use Rattle.std.specs.List.{list_all};
ghost use Rattle.retro_path.specs.Order.{path_eq};
ghost use Rattle.retro_path.specs.Name.{is_name, AllNames};
ghost use Rattle.retro_path.specs.Path.{parent_of, last_of, prefixes_of, usize_bound, may_exist};
ghost use Rattle.retro_path.specs.Path.{is_null, is_root, below, is_child, child_name, passwd};
ghost use Rattle.retro_path.specs.Slashed.{slashed};
ghost use Rattle.retro_path.specs.AfterChild.{after_child};
ghost use Rattle.retro_path.specs.Resolving.{step};

use crate::NoMem;
use crate::name::{Name, is_name};
use crate::names::{Names, rest_after, split_last, starts_with};
use crate::order::text_order;
use std::alloc::Global;
use std::cmp::Ordering;
use std::marker::Model;

/// A path: the names from the root to a file or directory. The root has none.
///
/// It is one text, with a slash before each name.
#[derive(Drop, Clone)]
pub struct Path {
    text: String,
}

impl Model for Path {
    ghost use Rattle.std.specs.Prelude.{List, ℕ, string_bytes};

    ghost Value = { List (List ℕ) };

    ghost use Rattle.retro_path.specs.inner.PathText.{names_in, IsPathText};

    ghost view = { λ a. names_in (string_bytes a.text) };

    ghost invariant = { λ a. IsPathText (string_bytes a.text) };
}

/// Returns how many bytes the text of a path has that is of these names, if there is memory for it.
fn text_length(names: &[&str]) -> usize {
    let mut length = 0_usize;
    for name in names {
        length = length.saturating_add(name.len()).saturating_add(1);
    }
    length
}

impl Path {
    /// Returns the path of the root. Takes no memory.
    pub fn root(alloc: Global) -> Path
        ensures { result ≡ [] }
    {
        Path {
            text: String::new(alloc),
        }
    }

    /// Returns the path of these names, from the root, or `None` if one can't be a name. Takes time
    /// in proportion to their length.
    #[tactic(auto, using(crate::proofs::Slashes::more_names))]
    pub fn of(alloc: Global, texts: Vec<String>) -> Result<Option<Path>, NoMem>
        ensures { IfOk result (λ found. MatchOption found
            (list_all is_name (map string_bytes texts.items) ≡ false)
            (λ path. path ≡ map string_bytes texts.items)) }
    {
        let mut path = Path::root(alloc);
        for text in texts {
            if !is_name(text.as_str()) {
                return Ok(None);
            }
            path = path.join(text.as_str())?;
        }
        Ok(Some(path))
    }

    /// Returns the path of these names, from the root, or `None` if one can't be a name. Takes one
    /// allocation, and time in proportion to their length.
    #[tactic(auto, using(crate::proofs::Slashes::more_names))]
    pub fn of_names(alloc: Global, names: &[&str]) -> Result<Option<Path>, NoMem>
        ensures { IfOk result (λ found. MatchOption found
            (list_all is_name (map (λ name. name.now) names.now) ≡ false)
            (λ path. path ≡ map (λ name. name.now) names.now)) }
    {
        let mut path = Path::with_room(alloc, text_length(names))?;
        for name in names {
            if !is_name(name) {
                return Ok(None);
            }
            path = path.join(name)?;
        }
        Ok(Some(path))
    }

    /// Returns the path of the root, with room for a text of so many bytes.
    fn with_room(alloc: Global, room: usize) -> Result<Path, NoMem>
        ensures { IfOk result (λ path. path ≡ []) }
    {
        Ok(Path {
            text: String::with_capacity(alloc, room)?,
        })
    }

    /// Returns the text of the path: `/a/b`, and nothing for the root.
    pub fn as_str(&self) -> &str
        ensures value { result.now ≡ slashed self.now }
        ensures names { AllNames self.now }
    {
        self.text.as_str()
    }

    /// Returns the names, from the root.
    pub fn names(&self) -> Names<'_>
        ensures value { result ≡ self.now }
        ensures names { AllNames self.now }
    {
        Names::of(self.text.as_str())
    }

    /// Returns a copy of the last name, or `None` for the root.
    pub fn last(&self, alloc: Global) -> Result<Option<Name>, NoMem>
        ensures { IfOk result (λ last. last ≡ last_of self.now) }
    {
        match split_last(self.text.as_str()) {
            Some((_, name)) => Ok(Name::of(String::from_str(alloc, name)?)),
            None => Ok(None),
        }
    }

    /// Returns the parent. The parent of the root is the root.
    pub fn parent(&self, alloc: Global) -> Result<Path, NoMem>
        ensures { IfOk result (λ parent. parent ≡ parent_of self.now) }
    {
        match split_last(self.text.as_str()) {
            Some((parent, _)) => Ok(Path {
                text: String::from_str(alloc, parent)?,
            }),
            None => Ok(Path::root(alloc)),
        }
    }

    /// Shortens the path to its parent. Takes no memory.
    pub fn into_parent(self) -> Path
        ensures { result ≡ parent_of self }
    {
        let mut path = self;
        if let Some((parent, _)) = split_last(path.text.as_str()) {
            let end = parent.len();
            path.text.truncate(end);
        }
        path
    }

    /// Returns the path of a child.
    pub fn child(&self, alloc: Global, name: &Name) -> Result<Path, NoMem>
        ensures value { IfOk result (λ child. child ≡ self.now ++ name.now ∷ []) }
        ensures length { IfOk result (λ child. length child < usize_bound) }
    {
        let name = name.as_str();
        let length = self.text.len().saturating_add(name.len());
        let mut text = String::with_capacity(alloc, length.saturating_add(1))?;
        text.push_str(self.text.as_str())?;
        text.push('/')?;
        text.push_str(name)?;
        Ok(Path { text })
    }

    /// Appends a name.
    fn join(self, name: &str) -> Result<Path, NoMem>
        requires { IsTrue (is_name name.now) }
        ensures { IfOk result (λ path. path ≡ self ++ name.now ∷ []) }
    {
        let Path { mut text } = self;
        text.push('/')?;
        text.push_str(name)?;
        Ok(Path { text })
    }

    /// Returns the prefixes of this path without the root, from the shortest to the path itself.
    pub fn prefixes(&self, alloc: Global) -> Result<Vec<Path>, NoMem>
        ensures { IfOk result (λ prefixes. prefixes.items ≡ prefixes_of self.now) }
    {
        let mut prefix = Path::root(alloc);
        let mut prefixes = Vec::new(alloc);
        for name in self.names() {
            prefix = prefix.join(name)?;
            prefixes.push(prefix.copy()?)?;
        }
        Ok(prefixes)
    }

    /// Returns the names that follow a prefix of this path, or `None` if it isn't a prefix.
    pub fn strip_prefix(&self, prefix: &Path) -> Option<Names<'_>>
        ensures { result ≡ below prefix.now self.now }
    {
        match rest_after(self.text.as_str(), prefix.text.as_str()) {
            Some(rest) => Some(Names::of(rest)),
            None => None,
        }
    }

    /// Returns whether another path is a prefix of this path.
    pub fn starts_with(&self, prefix: &Path) -> bool
        ensures { result ≡ is_some (below prefix.now self.now) }
    {
        starts_with(self.text.as_str(), prefix.text.as_str())
    }

    /// Returns a copy of the last name if this path is `parent` followed by one more name, or
    /// `None`.
    pub fn child_name(&self, alloc: Global, parent: &Path) -> Result<Option<Name>, NoMem>
        ensures { IfOk result (λ name. name ≡ child_name parent.now self.now) }
    {
        let Some(rest) = self.strip_prefix(parent) else {
            return Ok(None);
        };
        match rest.only() {
            Some(name) => Ok(Name::of(String::from_str(alloc, name)?)),
            None => Ok(None),
        }
    }

    /// Returns the least path after the child of `parent` that this path is below, and after all
    /// paths below that child: the path of the child's name followed by NUL. Returns `None` if this
    /// path isn't below a child of `parent`, or if the child's name has 255 bytes, so that no name
    /// follows it directly.
    pub fn after_child(&self, alloc: Global, parent: &Path) -> Result<Option<Path>, NoMem>
        ensures { IfOk result (λ after. after ≡ after_child parent.now self.now) }
    {
        let Some(mut names) = self.strip_prefix(parent) else {
            return Ok(None);
        };
        let Some(name) = names.next() else {
            return Ok(None);
        };
        if names.is_empty() {
            return Ok(None);
        }
        let mut next = String::from_str(alloc, name)?;
        next.push('\0')?;
        match Name::of(next) {
            Some(next) => Ok(Some(parent.child(alloc, &next)?)),
            None => Ok(None),
        }
    }

    /// Returns whether this path is `parent` followed by one more name.
    pub fn is_child_of(&self, parent: &Path) -> bool
        ensures { result ≡ is_child parent.now self.now }
    {
        match self.strip_prefix(parent) {
            Some(rest) => rest.only().is_some(),
            None => false,
        }
    }

    /// Returns whether this is the parent of a path.
    pub fn is_parent_of(&self, path: &Path) -> bool
        ensures { result ≡ path_eq (parent_of path.now) self.now }
    {
        match split_last(path.text.as_str()) {
            Some((parent, _)) => parent == self.text.as_str(),
            None => self.is_root(),
        }
    }

    /// Returns the path of the password file, `/etc/passwd`.
    pub fn passwd(alloc: Global) -> Result<Path, NoMem>
        ensures { IfOk result (λ path. path ≡ passwd) }
    {
        Ok(Path {
            text: String::from_str(alloc, "/etc/passwd")?,
        })
    }

    /// Returns whether this is the path of the password file.
    pub fn is_passwd(&self) -> bool
        ensures { result ≡ path_eq passwd self.now }
    {
        self.text.as_str() == "/etc/passwd"
    }

    /// Follows one part of a text: appends a name, or removes the last one for `..`. An empty part
    /// and `.` change nothing.
    #[tactic(auto, unfolding(crate::specs::Resolving::step))]
    pub(crate) fn enter(self, part: &str) -> Result<Path, NoMem>
        ensures { IfOk result (λ path. path ≡ step self part.now) }
    {
        if part == ".." {
            return Ok(self.into_parent());
        }
        if is_name(part) {
            return self.join(part);
        }
        Ok(self)
    }

    /// Returns whether this is the root.
    pub fn is_root(&self) -> bool
        ensures { result ≡ is_root self.now }
    {
        self.text.is_empty()
    }

    /// Returns whether a file or directory can exist here: not at `/dev/null` or below it.
    #[tactic(auto, unfolding(crate::specs::Path::may_exist))]
    pub fn may_exist(&self) -> bool
        ensures { result ≡ may_exist self.now }
    {
        !starts_with(self.text.as_str(), "/dev/null")
    }

    /// Returns whether this is `/dev/null`.
    #[tactic(auto, unfolding(crate::specs::Path::is_null))]
    pub fn is_null(&self) -> bool
        ensures value { result ≡ is_null self.now }
        ensures names { AllNames self.now }
    {
        self.text.as_str() == "/dev/null"
    }

    /// Returns a copy.
    pub fn copy(&self) -> Result<Path, NoMem>
        ensures { IfOk result (λ copy. copy ≡ self.now) }
    {
        self.clone()
    }
}

impl PartialEq for Path {
    ghost use Rattle.retro_path.specs.Order.{path_eq, path_per};

    ghost eq = { path_eq };

    ghost laws = { path_per };

    fn eq(&self, other: &Path) -> bool {
        self.text.as_str() == other.text.as_str()
    }
}

impl Eq for Path {
    ghost use Rattle.retro_path.specs.Order.{path_equiv};

    ghost laws = { path_equiv };
}

impl PartialOrd for Path {
    ghost use Rattle.std.specs.Ordering.{as_partial_cmp};
    ghost use Rattle.retro_path.specs.Order.{path_cmp, path_partial};

    ghost partial_cmp = { as_partial_cmp path_cmp };

    ghost laws = { path_partial };

    fn partial_cmp(&self, other: &Path) -> Option<Ordering> {
        Some(self.cmp(other))
    }
}

impl Ord for Path {
    ghost use Rattle.std.specs.Prelude.{refl};
    ghost use Rattle.retro_path.specs.Order.{path_cmp, path_total, path_ties};

    ghost cmp = { path_cmp };

    ghost total = { path_total };

    ghost matches_partial_cmp = { λ x y. refl };

    ghost matches_eq = { path_ties };

    fn cmp(&self, other: &Path) -> Ordering {
        text_order(self.text.as_bytes(), other.text.as_bytes())
    }
}
