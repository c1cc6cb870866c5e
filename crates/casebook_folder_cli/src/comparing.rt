//! Answers to requests for comparisons.
ghost use Rattle.std.specs.Prelude.{IfErr, IfOk, IfSome};
ghost use Rattle.casebook_folder_cli.specs.Comparing.{IsCompareAnswer};
ghost use Rattle.casebook_folder_cli.specs.Taking.{IsNotCompared};
ghost use Rattle.casebook_folder_cli.specs.Views.{compared_view};

use crate::folders::Folders;
use crate::remark::snapshot_words;
use crate::request::ComparedSnapshot;
use crate::source_fault::SourceFault;
use crate::taking::{PlacedSnapshot, compared};
use casebook_compare::{compare, comparison_lines};
use casebook_text::SafeLine;
use retro_keep::Recording;
use std::alloc::Global;

/// What a comparison of a recording with a folder says.
#[derive(Drop)]
pub struct CompareAnswer {
    /// How many paths are as recorded, each that isn't, and what isn't compared.
    pub lines: Vec<SafeLine>,
    /// Whether a path isn't as recorded.
    pub is_no: bool,
    /// How many paths the folder has, and how many were skipped for which reason.
    pub remark: SafeLine,
}

/// Takes or reads a snapshot, and compares it with what a recording has at its end.
pub fn compare_answer<F: Folders>(
    alloc: Global,
    folders: &F,
    request: &ComparedSnapshot<'_>,
    recording: &Recording,
) -> Result<CompareAnswer, SourceFault>
    ensures ok { IfOk result (λ answer. IfSome (F.holds folders.now) (λ at.
        IsCompareAnswer at (compared_view request.now) recording.now answer)) }
    ensures err { IfErr result (λ fault. IfSome (F.holds folders.now) (λ at.
        IsNotCompared at (compared_view request.now) fault)) }
{
    let PlacedSnapshot { snapshot, at } = compared(alloc, folders, request)?;
    let remark = snapshot_words(alloc, &snapshot)?;
    let comparison = compare(alloc, recording.last().tree(), snapshot, &at)?;
    Ok(CompareAnswer {
        lines: comparison_lines(alloc, recording, &comparison)?,
        is_no: comparison.has_differences(),
        remark,
    })
}
