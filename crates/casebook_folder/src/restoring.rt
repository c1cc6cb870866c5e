//! Carrying out rows.
ghost use Rattle.std.specs.Prelude.{◌≡◌, IfSome, OnOk};
ghost use Rattle.casebook_folder.specs.Moments.{IsRestored};
ghost use Rattle.casebook_folder.specs.Parts.{HaveNoParts, PartsStayBesides};
ghost use Rattle.casebook_folder.specs.Remaining.{EachMoment, TouchesOnly};
ghost use Rattle.casebook_folder.specs.Rows.{AreDistinct};
ghost use Rattle.casebook_folder.specs.declared.folder_error.FolderError.TheVariants as errors;
ghost use Rattle.casebook_folder.specs.Steps.{after_steps};

use crate::applying::{clear_all, make_steps};
use crate::folder::Folder;
use crate::folder_error::FolderError;
use crate::remaining::rows_left;
use crate::row::Row;
use crate::rows::Rows;
use std::alloc::Global;

/// Carries out rows: makes the steps that a folder still needs. After an interruption it can be
/// called again with the same rows.
///
/// # Errors
///
/// `Differs` if a path holds neither what its row says that was there nor what it is to hold, and
/// isn't missing. No step is made.
///
/// After another error some of the steps are made, in order.
#[tactic(auto, using(crate::proofs::Orders::distinct))]
pub fn apply<F: Folder>(alloc: Global, folder: &mut F, rows: &Rows) -> Result<(), FolderError>
    ensures same { F.first folder.new ≡ F.first folder.old }
    // After success the folder is the old one with the new nodes at exactly the rows' paths.
    ensures restored { OnOk result (IfSome (F.first folder.old) (λ first.
        IsRestored rows.now.items.items
        (after_steps (F.made folder.old) first) (after_steps (F.made folder.new) first))) }
    // At each moment, also where it fails, each path holds its old or its new node, or nothing
    // while its kind changes.
    ensures any_moment { IfSome (F.first folder.old) (λ first.
        EachMoment rows.now.items.items first (F.made folder.old) (F.made folder.new)) }
    // If a path isn't as its row says, no step is made.
    ensures refused { result ≡ Err errors.Differs → F.made folder.new ≡ F.made folder.old }
    // No step is at a path that no row is of, or where the folder holds something that is blocked,
    // as it does below a link.
    ensures touched { IfSome (F.first folder.old) (λ first.
        TouchesOnly rows.now.items.items first (F.made folder.old) (F.made folder.new)) }
    // What stopped steps left beside the rows' paths is removed, and beside other paths nothing is
    // left.
    ensures no_parts { OnOk result (IfSome (F.first folder.old) (λ first.
        HaveNoParts (F.parts folder.new) rows.now.items.items)) }
    ensures other_parts { IfSome (F.first folder.old) (λ first. PartsStayBesides
        rows.now.items.items (F.parts folder.old) (F.parts folder.new)) }
{
    restore(alloc, folder, rows.items.as_slice())?;
    clear_all(folder, rows.items.as_slice())
}

/// Makes the steps of rows that a folder still needs.
fn restore<F: Folder>(alloc: Global, folder: &mut F, rows: &[Row]) -> Result<(), FolderError>
    requires { AreDistinct rows.now }
    ensures same { F.first folder.new ≡ F.first folder.old }
    ensures restored { OnOk result (IfSome (F.first folder.old) (λ first. IsRestored rows.now
        (after_steps (F.made folder.old) first) (after_steps (F.made folder.new) first))) }
    ensures any_moment { IfSome (F.first folder.old) (λ first.
        EachMoment rows.now first (F.made folder.old) (F.made folder.new)) }
    ensures refused { result ≡ Err errors.Differs → F.made folder.new ≡ F.made folder.old }
    ensures touched { IfSome (F.first folder.old) (λ first.
        TouchesOnly rows.now first (F.made folder.old) (F.made folder.new)) }
    ensures other_parts { IfSome (F.first folder.old) (λ first.
        PartsStayBesides rows.now (F.parts folder.old) (F.parts folder.new)) }
{
    let left = rows_left(alloc, folder, rows)?;
    make_steps(folder, left.as_slice())
}
