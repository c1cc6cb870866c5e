//! What taking from a seat returns.
use crate::job::Job;

/// What taking a job from a seat returns.
pub enum TakeOutcome {
    /// The first job that was left.
    Got(Job),
    /// No job was left at one moment of the call.
    Bare,
    /// Another seat took a job at the same time. Nothing was taken here.
    Busy,
}
