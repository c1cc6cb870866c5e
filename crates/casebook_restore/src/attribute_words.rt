//! Modes and owners in words.
ghost use Rattle.std.specs.Prelude.{◌≡◌, ◌++◌, ◌≤◌, OnOk};
ghost use Rattle.casebook_restore.specs.Words.{attribute_words, digit, gets_words, keeps_words};
ghost use Rattle.casebook_restore.specs.Words.{mode_words};

use crate::NoMem;
use casebook_folder::{Attributes, Found};
use casebook_text::SafeLine;
use std::alloc::Global;

/// Appends one of the octal digits of a mode.
fn push_digit(alloc: Global, line: &mut SafeLine, mode: u32, unit: u32) -> Result<(), NoMem>
    requires { 1 ≤ unit }
    ensures { OnOk result (line.new ≡ line.old ++ digit mode unit) }
{
    line.push_number(alloc, u64::from(mode / unit % 8))
}

/// Appends the four octal digits of a mode, and an owner and a group: `0644 0:1003`.
#[tactic(auto, unfolding(crate::specs::Words::attribute_words))]
fn push_attributes(alloc: Global, line: &mut SafeLine, attributes: &Attributes) -> Result<(), NoMem>
    ensures { OnOk result (line.new ≡ line.old ++ attribute_words attributes.now) }
{
    push_digit(alloc, line, attributes.mode, 512)?;
    push_digit(alloc, line, attributes.mode, 64)?;
    push_digit(alloc, line, attributes.mode, 8)?;
    push_digit(alloc, line, attributes.mode, 1)?;
    line.push_ascii(" ")?;
    line.push_number(alloc, u64::from(attributes.uid))?;
    line.push_ascii(":")?;
    line.push_number(alloc, u64::from(attributes.gid))
}

/// Appends that a node keeps its mode and owner.
#[tactic(auto, unfolding(crate::specs::Words::keeps_words))]
fn push_keeps(alloc: Global, line: &mut SafeLine, attributes: &Attributes) -> Result<(), NoMem>
    ensures { OnOk result (line.new ≡ line.old ++ keeps_words attributes.now) }
{
    line.push_ascii("; keeps ")?;
    push_attributes(alloc, line, attributes)
}

/// Appends that a node gets a mode and an owner.
#[tactic(auto, unfolding(crate::specs::Words::gets_words))]
fn push_gets(alloc: Global, line: &mut SafeLine, attributes: &Attributes) -> Result<(), NoMem>
    ensures { OnOk result (line.new ≡ line.old ++ gets_words attributes.now) }
{
    line.push_ascii("; gets ")?;
    push_attributes(alloc, line, attributes)
}

/// Appends which mode and owner a node has that comes in the place of what is found.
#[tactic(auto, unfolding(crate::specs::Words::mode_words))]
pub(crate) fn push_mode(
    alloc: Global,
    line: &mut SafeLine,
    before: &Found,
    after: &Found,
) -> Result<(), NoMem>
    ensures { OnOk result (line.new ≡ line.old ++ mode_words before.now after.now) }
{
    match (before, after) {
        (Found::Dir(_), Found::Dir(a)) | (Found::File(_, _), Found::File(_, a)) => {
            push_keeps(alloc, line, a)
        }
        (_, Found::Dir(a)) | (_, Found::File(_, a)) => push_gets(alloc, line, a),
        (_, Found::Missing) | (_, Found::Blocked(_)) => Ok(()),
    }
}
