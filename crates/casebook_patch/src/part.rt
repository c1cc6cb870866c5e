//! The parts in which two texts differ.
ghost use Rattle.std.specs.Prelude.{◌≡◌, IfOk, Some, map};
ghost use Rattle.casebook_text.specs.Hunks.{HasCounts};
ghost use Rattle.casebook_patch.specs.Parts.{patched, turned};
ghost use Rattle.casebook_patch.specs.inner.Leading.{part_of};

use crate::NoMem;
use casebook_text::{Hunk, Mark, Span, diff, hunks};
use std::alloc::Global;
use std::marker::Model;

/// How many lines are kept before and after lines that differ.
const CONTEXT: usize = 3;

/// A part of a patch of a text: lines that differ, with lines around them that are the same.
#[derive(Drop)]
pub struct Part<'a> {
    /// Its lines in the old text.
    pub old: Span,
    /// Its lines in the new text.
    pub new: Span,
    /// The lines of both, merged, each with its newline if it has one.
    pub lines: Vec<(Mark, &'a str)>,
}

impl<'a> Model for Part<'a> {
    ghost use Rattle.casebook_patch.specs.Parts.{IsCounted, PartValue};
    ghost use Rattle.casebook_patch.specs.inner.Leading.{part_value};

    ghost Value = { PartValue };

    ghost view = { λ a. part_value a.old a.new a.lines.items };

    ghost invariant = { λ a. IsCounted (part_value a.old a.new a.lines.items) };
}

/// Returns a copy of lines of a diff. Their texts are borrowed.
fn copies<'a>(alloc: Global, lines: &[(Mark, &'a str)]) -> Result<Vec<(Mark, &'a str)>, NoMem>
    ensures { IfOk result (λ copies. copies.items ≡ lines.now) }
{
    lines.iter().copied().collect(alloc)
}

/// Returns a part of a diff with its lines.
fn part_of<'a>(alloc: Global, lines: &[(Mark, &'a str)], hunk: &Hunk) -> Result<Part<'a>, NoMem>
    requires { HasCounts lines.now hunk.now }
    ensures { IfOk result (λ part. part ≡ part_of lines.now hunk.now) }
{
    Ok(Part {
        old: hunk.old,
        new: hunk.new,
        lines: copies(alloc, &lines[hunk.from..hunk.to])?,
    })
}

/// Returns the parts in which two texts differ, in order. The cost is that of [`diff`].
pub fn parts_of<'a>(alloc: Global, old: &[&'a str], new: &[&'a str]) -> Result<Vec<Part<'a>>, NoMem>
    // They make the new text of the old one.
    ensures forward { IfOk result (λ parts. patched 0 parts.items
        (map (λ line. line.now) old.now) ≡ Some (map (λ line. line.now) new.now)) }
    // The opposite parts make the old text of the new one.
    ensures backward { IfOk result (λ parts. patched 0 (map turned parts.items)
        (map (λ line. line.now) new.now) ≡ Some (map (λ line. line.now) old.now)) }
{
    let merged = diff(alloc, old, new)?;
    let found = hunks(alloc, merged.as_slice(), CONTEXT)?;
    let mut parts = Vec::new(alloc);
    for hunk in found.as_slice() {
        parts.push(part_of(alloc, merged.as_slice(), hunk)?)?;
    }
    Ok(parts)
}
