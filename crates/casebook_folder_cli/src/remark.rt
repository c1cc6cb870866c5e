//! What is said of a snapshot beside its document.
ghost use Rattle.std.specs.Prelude.{◌≡◌, ◌++◌, count_by, IfOk, IsTrue, OnOk};
ghost use Rattle.std.specs.List.{flat_map, list_all};
ghost use Rattle.casebook_text.specs.SafeText.{is_printable};
ghost use Rattle.casebook_snapshot_json.specs.Reasons.{reason_text};
ghost use Rattle.casebook_folder_cli.specs.Remarks.{is_called, reason_words, snapshot_words};

use crate::NoMem;
use casebook_snapshot::{Reason, SkippedPath, Snapshot};
use casebook_snapshot_json::reason_text;
use casebook_text::SafeLine;
use std::alloc::Global;

/// The reasons to skip a path, in the order in which they are told.
const REASONS: &[Reason] = &[
    Reason::Link,
    Reason::Device,
    Reason::Pipe,
    Reason::Socket,
    Reason::OtherFileSystem,
    Reason::TooLarge,
    Reason::OddName,
    Reason::NameTooLong,
    Reason::Unreadable,
    Reason::Changing,
    Reason::NullDevice,
    Reason::Asked,
];

/// Returns how many paths are skipped for the reason with a name.
fn count_of(skipped: &[SkippedPath], name: &str) -> usize
    ensures { result ≡ count_by (is_called name.now) skipped.now }
{
    skipped
        .iter()
        .filter(|one| reason_text(one.reason) == name)
        .count()
}

/// Appends how many paths are skipped for a reason, if there are any.
#[tactic(auto, using(crate::proofs::Reasons::printable))]
fn push_reason(
    alloc: Global,
    line: &mut SafeLine,
    skipped: &[SkippedPath],
    reason: Reason,
) -> Result<(), NoMem>
    ensures { OnOk result (line.new ≡ line.old ++ reason_words skipped.now reason) }
{
    let name = reason_text(reason);
    let count = count_of(skipped, name);
    if count == 0 {
        return Ok(());
    }
    line.push_ascii(", ")?;
    line.push_ascii(name)?;
    line.push_ascii(" ")?;
    line.push_number(alloc, count as u64)
}

/// Appends how many paths are skipped for each of some reasons, if there are any.
fn push_reasons(
    alloc: Global,
    line: &mut SafeLine,
    skipped: &[SkippedPath],
    reasons: &[Reason],
) -> Result<(), NoMem>
    ensures { OnOk result
        (line.new ≡ line.old ++ flat_map (reason_words skipped.now) reasons.now) }
{
    for reason in reasons {
        push_reason(alloc, line, skipped, *reason)?;
    }
    Ok(())
}

/// Returns how many paths a snapshot has, and how many were skipped for which reason:
/// `paths 251, skipped 14, link 9, too large 5`.
pub(crate) fn snapshot_words(alloc: Global, snapshot: &Snapshot) -> Result<SafeLine, NoMem>
    ensures { IfOk result (λ line. line ≡ snapshot_words snapshot.now) }
{
    let skipped = snapshot.skipped.as_slice();
    let mut line = SafeLine::new(alloc);
    line.push_ascii("paths ")?;
    line.push_number(alloc, snapshot.rows.len() as u64)?;
    line.push_ascii(", skipped ")?;
    line.push_number(alloc, skipped.len() as u64)?;
    push_reasons(alloc, &mut line, skipped, REASONS)?;
    Ok(line)
}
