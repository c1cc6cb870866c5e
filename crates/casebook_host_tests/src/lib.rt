//! Tests of `casebook_host` over rows of `/proc/self/mounts` and of what `who` prints.
//!
//! What rows want was decided by hand, from the manual pages `proc_pid_mounts(5)`, `fstab(5)`,
//! `mount(8)` and `who(1)`.
#![tactic(auto)]

#[cfg(test)]
mod calls;
#[cfg(test)]
mod rows;
#[cfg(test)]
mod tables;
