//! The state of a machine: a tree of files, and the sessions that work in it.
//!
//! `State::empty`, `State::place` and `State::add_session` make a state, lawful or not. In
//! contracts it is two finite maps: from paths to directories and files, and from numbers to
//! sessions.
//!
//! A state is the values of its `Cell`s: the node at each path, and the directory, variables and
//! status of each session. A `Change` writes one cell. An `Ask` is a query. Its `Answer` depends
//! only on the cells that `supports` names. A `View` answers queries about one state.
//!
//! A `CellRef` is a borrowed cell, and a `ValueRef` a borrowed value. `Cells` lends the values of
//! one state.
//!
//! `Notes` are a trace of reads and writes with their values. An `Overlay` has entries for some
//! cells and takes the other cells from a view. It answers queries about the combined state, takes
//! changes, and commits to a state, all or nothing.
//!
//! A state is lawful if the root is a directory, as is the parent of each other path, nothing is at
//! `/dev/null` or below it, and the state is within the limits. `State::is_lawful` decides that.
//! `State::allows` decides whether a change is lawful, and a lawful change keeps a lawful state
//! lawful. Any write that `State::permit` allows is lawful in a lawful state, except at
//! `/dev/null`.
//!
//! The names of `retro_path` are exported here too, so that a crate that works with states needs
//! only this one.
//!
//! If allocation fails, calls return `NoMem` and leave borrowed arguments unchanged.
//!
//! Start reading at `state.rt`, then `cell.rt`, `ask.rt` and `change.rt`, then `overlay.rt`.
//!
//! # What is proved
//!
//! - States are finite maps in contracts, and each call on a `State` is an equation on them. If
//!   allocation fails, the state is unchanged.
//! - A change writes its own cell and no other (`changes_write_one_cell`); an answer depends only
//!   on the cells that `supports` tells (`answers_depend_on_cells`); states with equal cells and
//!   sessions are equal (`cells_make_the_state`); a listing is sorted and has exactly the names of
//!   the children (`listings_name_the_children`).
//! - `Change::cell` gives the cell that a change writes, without a copy, and `Cells::get` borrows
//!   the value of a cell in one state.
//! - `State::is_lawful`, `State::validate` and `State::is_within_limits` are exact. `State::allows`
//!   is true exactly if a change is lawful. In a lawful state that is exactly a test at the cell
//!   and around it (`lawful_changes`), and writes that `State::permit` allows pass it, except at
//!   `/dev/null` (`file_changes_pass`, `directory_changes_pass`, `removals_pass`). A change whose
//!   session exists leaves the same sessions (`changes_keep_sessions`).
//! - Notes act on each cell alone (`notes_act_on_each_cell`); whether they hold depends on the
//!   cells that they touch (`notes_hold_by_their_cells`); lawful notes keep a lawful state lawful
//!   (`allowed_notes_keep_the_law`) and its sessions (`allowed_notes_keep_the_sessions`).
//! - `Overlay::answer`, `value` and `children` answer as the combined state does, over every view,
//!   lawful or not. `Overlay::apply` leaves the overlay of the state after a change.
//!   `Overlay::commit` writes every entry or none. An overlay whose entries fit their cells has a
//!   combined state (`fitting_overlays_combine`).
//! - An overlay that is exactly the difference of two states stays so over a line of each
//!   (`lines_keep_overlays_exact`), and committing it to one gives the other
//!   (`exact_overlays_make_the_state`).
//! - `is_same` of `Ask`, `Answer`, `Cell`, `Change`, `Value`, `Note` and `Notes` is exact equality.
#![tactic(auto)]

mod answer;
mod ask;
mod cell;
mod cell_laws;
mod cell_ref;
mod cells;
mod change;
mod combined;
mod commit;
mod entry;
mod entry_map;
mod kind;
mod known;
mod laws;
mod node;
mod note;
mod note_laws;
mod notes;
mod overlay;
mod overlay_entry;
mod overlay_laws;
mod permit;
mod previous;
mod session;
mod session_map;
mod sessions;
mod setting;
mod state;
mod tree;
mod undo;
mod user;
mod value;
mod value_ref;
mod vars;
mod view;

pub use answer::Answer;
pub use ask::{Ask, supports};
pub use cell::Cell;
pub use cell_laws::{
    answers_depend_on_cells, cells_make_the_state, changes_write_one_cell,
    listings_name_the_children,
};
pub use cell_ref::CellRef;
pub use cells::Cells;
pub use change::Change;
pub use entry::{Entry, FILE_LIMIT};
pub use kind::Kind;
pub use laws::{
    changes_keep_sessions, directory_changes_pass, file_changes_pass, lawful_changes, lawful_files,
    lawful_growths, lawful_states_are_within_limits, lawful_states_pass, lawful_statuses,
    lawful_trees, lawful_trees_pass, permits_are_clamped, removals_pass,
};
pub use node::Node;
pub use note::Note;
pub use note_laws::{
    allowed_notes_keep_the_law, allowed_notes_keep_the_sessions, notes_act_on_each_cell,
    notes_hold_by_their_cells, notes_in_turn,
};
pub use notes::Notes;
pub use overlay::Overlay;
pub use overlay_entry::OverlayEntry;
pub use overlay_laws::{
    committed_states, exact_overlays, exact_overlays_make_the_state, fitting_overlays_combine,
    lines_keep_overlays_exact, overlays_follow_the_state,
};
pub use permit::Permit;
pub use retro_path::{
    Bytes, Listing, NAME_LIMIT, Name, Names, Path, Resolved, Text, VarName, is_relative, resolve,
    resolve_ignores_the_directory,
};
pub use session::{Session, VALUE_LIMIT};
pub use sessions::Sessions;
pub use state::State;
pub use tree::Tree;
pub use user::{User, find_user};
pub use value::Value;
pub use value_ref::ValueRef;
pub use vars::Vars;
pub use view::View;

/// Allocation failed.
pub use retro_path::NoMem;
