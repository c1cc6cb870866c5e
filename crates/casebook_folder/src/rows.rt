//! Rows in order, which can be kept and given again.
ghost use Rattle.std.specs.Prelude.{map};
ghost use Rattle.std.specs.List.Sorted.{IsStrictlySortedBy-prop};
ghost use Rattle.retro_path.specs.Order.{path_cmp};
ghost use Rattle.casebook_folder.specs.Rows.{AreInOrder, path_of};

use crate::fitting::fit;
use crate::folder_error::FolderError;
use crate::order::{are_in_order, is_plan_in_order};
use crate::planned_row::PlannedRow;
use crate::ready::add_ready;
use crate::row::Row;
use std::alloc::Global;

/// Rows in order of their paths, of which no path has two.
#[derive(Drop)]
pub struct Rows {
    /// The rows.
    pub items: Vec<Row>,
    pub ghost in_order: { AreInOrder items.items } by { IsStrictlySortedBy-prop path_cmp (map path_of items.items) },
}

impl Rows {
    ghost use Rattle.std.specs.Prelude.{◌≡◌, ◌⊎◌, IfErr, IfOk, IsTrue};
    ghost use Rattle.std.specs.List.{list_all};
    ghost use Rattle.casebook_folder.specs.Plans.{Fit, can_be_restored, ready_rows, row_of};
    ghost use Rattle.casebook_folder.specs.declared.folder_error.FolderError.TheVariants as errors;

    /// Takes rows, as they are read from a file in which they were kept.
    ///
    /// # Errors
    ///
    /// `Unsorted` if they aren't in order of their paths, or a path has two.
    pub fn of(rows: Vec<Row>) -> Result<Rows, FolderError>
        ensures value { IfOk result (λ taken. taken.items ≡ rows) }
        ensures err { IfErr result (λ error.
            (error ≡ errors.Unsorted) × (¬ (AreInOrder rows.items))) }
    {
        if !are_in_order(rows.as_slice()) {
            return Err(FolderError::Unsorted);
        }
        Ok(Rows { items: rows })
    }

    /// Returns the rows of a plan for which the folder is ready, with what it holds there.
    ///
    /// # Errors
    ///
    /// `NotReady` if the folder is neither ready for one of the plan's rows nor done with it;
    /// `Unsorted` if the plan's rows aren't in order of their paths, or a path has two.
    pub fn of_plan(alloc: Global, plan: &[PlannedRow]) -> Result<Rows, FolderError>
        ensures value { IfOk result (λ rows. rows.items.items ≡ ready_rows plan.now) }
        ensures ready { IfOk result (λ rows. IsTrue (list_all can_be_restored plan.now)) }
        ensures not_ready { (result ≡ Err errors.NotReady)
            → ¬ (IsTrue (list_all can_be_restored plan.now)) }
        ensures unsorted { (result ≡ Err errors.Unsorted) → ¬ (AreInOrder (ready_rows plan.now)) }
    {
        let mut rows = Vec::new(alloc);
        for row in plan {
            add_ready(&mut rows, row)?;
        }
        Rows::of(rows)
    }

    /// Takes these rows, which were kept, for a plan that they fit: each is that of one of the
    /// plan's changes, by what it says that was there, and the folder is done with all other
    /// changes. So carrying out the rows carries out the plan.
    ///
    /// # Errors
    ///
    /// `Unsorted` if the plan's rows aren't in order of their paths, or a path has two; `NotReady`
    /// if these rows don't fit the plan.
    pub fn for_plan(self, plan: &[PlannedRow]) -> Result<Rows, FolderError>
        ensures value { IfOk result (λ rows. rows.items ≡ self.items) }
        ensures fit { IfOk result (λ rows. Fit plan.now rows.items.items) }
        ensures err { IfErr result (λ error.
            (error ≡ errors.NotReady) ⊎ (error ≡ errors.Unsorted)) }
        ensures not_ready { (result ≡ Err errors.NotReady) → ¬ (Fit plan.now self.items.items) }
        ensures unsorted { (result ≡ Err errors.Unsorted)
            → ¬ (AreInOrder (map row_of plan.now)) }
    {
        if !is_plan_in_order(plan) {
            return Err(FolderError::Unsorted);
        }
        if !fit(plan, self.items.as_slice()) {
            return Err(FolderError::NotReady);
        }
        Ok(self)
    }
}
