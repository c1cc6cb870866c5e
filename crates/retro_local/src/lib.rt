//! A view of a state with the notes made over it.
//!
//! `Local` makes queries and changes, and notes each with its value. It answers as the state after
//! its changes, and never changes the view itself. So a computation over a `Local` runs on any
//! view, and its notes say what it read and wrote.
//!
//! What runs over a `Local` has two clauses. `means` gives the result as a function of one state:
//! in every lawful state in which the new notes hold, the function of the state that the old notes
//! reach gives the result and the state that the new notes reach. `extends` says that notes are
//! only added, and name no other session. The words are defined in `specs/Runs.antt`.
//!
//! `holds` decides whether notes hold in the state of a view. `apply_notes` makes their changes.
//!
//! If allocation fails, calls return `NoMem`. A `Local` then has its earlier notes and maybe
//! some later ones, which hold. Other arguments are unchanged.
//!
//! # What is proved
//!
//! - A `Local` answers as the view's state after its changes, and notes each answer and change. Its
//!   notes hold in the view's state [`hold`]. If they are one session's, then in every lawful state
//!   that has this session and in which they hold, each change is lawful where it is made
//!   [`allowed`]. `holds` is exact, and `apply_notes` leaves the state after the notes.
#![tactic(auto)]

mod local;
mod replay;

pub use local::Local;
pub use replay::{apply_notes, holds};
