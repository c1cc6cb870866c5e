//! Tests of boards of jobs, over the grounds of small recordings whose first line is cancelled.
#![tactic(auto)]

#[cfg(test)]
mod boards;
#[cfg(test)]
mod grounds;
#[cfg(test)]
mod working;
