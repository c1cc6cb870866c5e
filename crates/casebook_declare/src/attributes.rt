//! The attributes of a variable.
ghost use Rattle.std.specs.Prelude.{◌≡◌};
ghost use Rattle.casebook_declare.specs.Attributes.{are_among, are_flags, assignment_of};
ghost use Rattle.casebook_declare.specs.Attributes.{attributes_of, has, kind_of, letters, without};

use crate::assignment::Assignment;

/// The letters of the attributes, in the order in which bash prints them.
const LETTERS: &[u8; 10] = b"aAinrtxclu";

/// What a variable has.
#[derive(Clone, Copy, Debug, Drop)]
pub(crate) enum Kind {
    /// A value.
    Value,
    /// The name of another variable.
    Reference,
    /// A value for each index.
    Indexed,
    /// A value for each key.
    Keyed,
}

/// The attributes of a variable.
#[derive(Clone, Copy, Debug, Drop)]
pub(crate) struct Attributes {
    /// What the variable has.
    pub kind: Kind,
    /// Whether it is exported.
    pub is_exported: bool,
    /// What an assignment to it does.
    pub assignment: Assignment,
}

/// Returns flags without a letter that they begin with.
fn without(letter: u8, flags: &[u8]) -> &[u8]
    ensures { result.now ≡ without letter flags.now }
{
    match flags {
        [flag, more @ ..] if *flag == letter => more,
        _ => flags,
    }
}

/// Returns whether flags are some of the letters, in their order.
#[tactic(auto, unfolding(crate::specs::Attributes::are_among))]
fn are_among(flags: &[u8]) -> bool
    ensures { result ≡ are_among flags.now letters }
{
    let mut rest = flags;
    for letter in LETTERS {
        rest = without(*letter, rest);
    }
    rest.is_empty()
}

/// Returns whether a text is the flags of a variable: letters, or a dash if there are none.
#[tactic(auto, unfolding(crate::specs::Attributes::are_flags))]
fn are_flags(text: &[u8]) -> bool
    ensures { result ≡ are_flags text.now }
{
    text == b"-".as_slice() || (!text.is_empty() && are_among(text))
}

/// Returns whether flags have a letter.
fn has(flags: &[u8], letter: u8) -> bool
    ensures { result ≡ has flags.now letter }
{
    flags.contains(&letter)
}

/// Returns what a variable with these flags has.
fn kind_of(flags: &[u8]) -> Kind
    ensures { result ≡ kind_of (has flags.now) }
{
    if has(flags, b'a') {
        Kind::Indexed
    } else if has(flags, b'A') {
        Kind::Keyed
    } else if has(flags, b'n') {
        Kind::Reference
    } else {
        Kind::Value
    }
}

/// Returns what an assignment to a variable with these flags does.
fn assignment_of(flags: &[u8]) -> Assignment
    ensures { result ≡ assignment_of (has flags.now) }
{
    if has(flags, b'r') {
        Assignment::Refused
    } else if has(flags, b'i') || has(flags, b'c') || has(flags, b'l') || has(flags, b'u') {
        Assignment::Changed
    } else {
        Assignment::Plain
    }
}

impl Attributes {
    /// Returns the attributes that flags are.
    #[tactic(auto, unfolding(crate::specs::Attributes::attributes_of, crate::specs::Attributes::attributes))]
    pub(crate) fn of(flags: &[u8]) -> Option<Attributes>
        ensures { result ≡ attributes_of flags.now }
    {
        if !are_flags(flags) {
            return None;
        }
        Some(Attributes {
            kind: kind_of(flags),
            is_exported: has(flags, b'x'),
            assignment: assignment_of(flags),
        })
    }
}
