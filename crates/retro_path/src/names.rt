//! The names of a path.
ghost use Rattle.std.specs.Prelude.{◌≡◌, [], ◌∷◌, MatchOption, None, Some, is_some};
ghost use Rattle.retro_path.specs.Path.{is_root, only_name, below};
ghost use Rattle.retro_path.specs.inner.PathText.{names_in, IsPathText, IsSplitAtLast, at_slash};
ghost use Rattle.std.specs.Option.{option_copied};

use std::marker::Model;

/// The names of a path that are still to come, from the root. `strip_prefix` gives those that
/// follow a prefix.
#[derive(Drop)]
pub struct Names<'a> {
    rest: &'a str,
}

impl<'a> Model for Names<'a> {
    ghost use Rattle.std.specs.Prelude.{List, ℕ};
    ghost use Rattle.retro_path.specs.inner.PathText.{names_in, IsPathText};

    ghost Value = { List (List ℕ) };

    ghost view = { λ a. names_in a.rest.now };

    ghost invariant = { λ a. IsPathText a.rest.now };
}

impl<'a> Names<'a> {
    /// Returns the names in the text of a path.
    pub(crate) fn of(text: &'a str) -> Names<'a>
        requires { IsPathText text.now }
        ensures { result ≡ names_in text.entry.now }
    {
        Names { rest: text }
    }

    /// Returns whether no names are left.
    pub fn is_empty(&self) -> bool
        ensures { result ≡ is_root self.now }
    {
        self.rest.is_empty()
    }

    /// Returns the only name that is left, or `None` if there is none or there are several.
    pub fn only(&self) -> Option<&'a str>
        ensures { option_copied result ≡ only_name (Some self.now) }
    {
        match split_first(self.rest) {
            Some((name, rest)) if rest.is_empty() => Some(name),
            _ => None,
        }
    }
}

impl<'a> Iterator for Names<'a> {
    ghost use Rattle.std.specs.Iterator.{YieldsFirstRef, item_count};

    type Item = &'a str;

    ghost next_gives = { YieldsFirstRef (λ names. names) };

    ghost remaining = { item_count (λ names. names) };

    fn next(&mut self) -> Option<&'a str> {
        match split_first(self.rest) {
            Some((name, rest)) => {
                self.rest = rest;
                Some(name)
            }
            None => None,
        }
    }
}

/// Returns the first name in the text of a path and the text of the other names, or `None` for the
/// root.
fn split_first<'a>(text: &'a str) -> Option<(&'a str, &'a str)>
    requires { IsPathText text.now }
    ensures { MatchOption result (names_in text.entry.now ≡ [])
        (λ parts. (names_in text.entry.now ≡ parts.0.now ∷ names_in parts.1.now)
        × IsPathText parts.1.now) }
{
    match text.strip_prefix('/') {
        Some(text) => match text.find('/') {
            Some(end) => Some((&text[..end], &text[end..])),
            None => Some((text, "")),
        },
        None => None,
    }
}

/// Returns the text of the parent and the last name, or `None` for the root.
pub(crate) fn split_last(text: &str) -> Option<(&str, &str)>
    requires { IsPathText text.now }
    ensures { MatchOption result (names_in text.now ≡ [])
        (λ parts. IsSplitAtLast text.now parts.0.now parts.1.now) }
{
    match text.rsplit_once('/') {
        Some((parent, name)) => Some((parent, name)),
        None => None,
    }
}

/// Returns the text of the names that follow a prefix, or `None` if it isn't a prefix.
pub(crate) fn rest_after<'a>(text: &'a str, prefix: &str) -> Option<&'a str>
    requires text { IsPathText text.now }
    requires prefix { IsPathText prefix.now }
    ensures { MatchOption result
        (below (names_in prefix.now) (names_in text.entry.now) ≡ None)
        (λ rest. IsPathText rest.now
        × (below (names_in prefix.now) (names_in text.entry.now) ≡ Some (names_in rest.now))) }
{
    match text.strip_prefix(prefix) {
        Some(rest) => { if is_at_slash(rest) { Some(rest) } else { None } }
        None => None,
    }
}

/// Returns whether a text is that of a path that starts with a prefix. Both are texts of paths.
pub(crate) fn starts_with(text: &str, prefix: &str) -> bool
    requires text { IsPathText text.now }
    requires prefix { IsPathText prefix.now }
    ensures { result ≡ is_some (below (names_in prefix.now) (names_in text.now)) }
{
    rest_after(text, prefix).is_some()
}

/// Returns whether a text is empty or begins with a slash.
fn is_at_slash(text: &str) -> bool
    ensures { result ≡ at_slash text.now }
{
    match text.as_bytes() {
        [] => true,
        [first, ..] => *first == b'/',
    }
}
