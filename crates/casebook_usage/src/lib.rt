//! How a command uses a utility, and whether a shell on a real machine reads it in the same way.
//!
//! A use is understood if it means in interactive bash, with GNU's utilities, what it means in
//! Retro's shell. A use that is understood is in a form of the utility's synopsis, so in Retro's
//! shell it is no usage fault, whatever its words become.
//!
//! If allocation fails, calls return `NoMem`.
//!
//! Start reading at `uses.rt`, then `form.rt`.
//!
//! # What is proved
//!
//! - `obstacle_of_use` returns why a use of a utility isn't understood, or `None` if it is, by
//!   `use_obstacle` (`specs/Obstacles.antt`): an equation over what is known of its words.
//! - `understood_uses_fit`: a use that is understood is in a form that the utility has (`takes` of
//!   `specs/Forms.antt`), whatever fields its words become. `fitting_calls_are_no_usage_faults` and
//!   `other_calls_are_usage_faults`: a call is a usage fault in Retro's shell exactly if its fields
//!   aren't in such a form, in any state. `calls_set_no_variables` and `outputs_leave_sessions` say
//!   what calls and redirections leave.
#![tactic(auto)]

mod echo;
mod form;
mod laws;
mod obstacle;
mod shape;
#[cfg(test)]
mod tests;
mod uses;

pub use laws::{
    calls_set_no_variables, fitting_calls_are_no_usage_faults, other_calls_are_usage_faults,
    outputs_leave_sessions, understood_uses_fit,
};
pub use obstacle::Obstacle;
pub use shape::Shape;
pub use uses::obstacle_of_use;

/// Allocation failed.
pub use retro_path::NoMem;
