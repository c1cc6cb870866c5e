//! What happened in watched folders between two looks, for a recorder of lines that is to say what
//! a line read and what it left.
//!
//! A `Sight` is what the system says of one path without opening it: kind, size, number, attributes
//! and three times. `Sights` are what one look says. In contracts they are a finite map from paths
//! to sights.
//!
//! [`seen_between`] compares the sights of two looks: which files were read, which directories were
//! listed, where something is new or was changed, and which paths are gone. Whether a file was read
//! shows by its access time, so it shows only on a file system that sets this time at each reading.
//!
//! [`delta_between`] returns what a look changes in the sights of the look before, and
//! `Sights::updated` makes such changes. So it is enough to keep the first look and the changes
//! since.
//!
//! If allocation fails, calls return `NoMem`. Then `Sights::insert` leaves the sights unchanged.
//!
//! Start reading at `sight.rt` and `seen.rt`, then `delta.rt`.
//!
//! # What is proved
//!
//! - `seen_between` returns the paths of the later look that pass the tests `is_read`, `is_listed`
//!   and `is_changed` of their sights before and after, and the paths of the earlier look that the
//!   later one doesn't have [`read`, `listed`, `changed`, `gone`].
//! - A path is in one of these lists exactly if its sights in both looks say so
//!   (`paths_are_named_exactly`). The lists are in order of paths, each path once
//!   (`paths_are_in_order`). No path is both changed and gone (`no_path_is_changed_and_gone`).
//!   Between two equal looks nothing happened (`equal_looks_show_nothing`).
//! - `delta_between` returns the paths whose sight is new or differs, and those that are gone
//!   [`value`]. The sights of the earlier look, updated by these changes, are those of the later
//!   one [`leads`].
//! - Each call on `Sights` is an equation on finite maps. `updated` makes the changes one after the
//!   other.
#![tactic(auto)]

mod delta;
mod file_time;
mod kind;
mod laws;
mod seen;
mod sight;
mod sight_change;
mod sights;

pub use delta::delta_between;
pub use file_time::FileTime;
pub use kind::Kind;
pub use laws::{
    equal_looks_show_nothing, no_path_is_changed_and_gone, paths_are_in_order,
    paths_are_named_exactly,
};
pub use seen::{Seen, seen_between};
pub use sight::Sight;
pub use sight_change::SightChange;
pub use sights::Sights;

/// Allocation failed.
pub use retro_path::NoMem;
