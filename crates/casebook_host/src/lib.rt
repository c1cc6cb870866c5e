//! Two tables that a machine has of itself: its mounts, and who is logged in.
//!
//! Both come as bytes: this crate reads no file. Each line of a table is a row, and blanks and tabs
//! separate the words of a row. A table may have any bytes, and a row with too few words counts for
//! nothing.
//!
//! [`unseen`] reads `/proc/self/mounts`, in the form of `fstab(5)`. It returns the folders in which
//! reading a file leaves no trace, since the mount there is read-only or doesn't update the time of
//! access at each reading. [`logins`] reads what `who` prints, and returns each [`Login`].
//!
//! If allocation fails, calls return `NoMem`.
//!
//! Start reading at `seen.rt` and `who.rt`, then `mount.rt`.
//!
//! # What is proved
//!
//! - `unseen` returns exactly the folders in which reading isn't seen, in order (`unseen` in
//!   `specs/Mounts.antt`). The mount of a folder is that of the last row whose point is the folder
//!   or lies above it.
//! - `logins` returns exactly the first two words of each row that has two, in order (`logins_in`
//!   in `specs/Logins.antt`).
#![tactic(auto)]

mod escape;
mod login;
mod mount;
mod mounts;
mod seen;
mod who;
mod words;

pub use login::Login;
pub use seen::unseen;
pub use who::logins;

/// Allocation failed.
pub use retro_path::NoMem;
