//! Lines of a recording with what a repair does with them.
use crate::fate::Fate;
use crate::reason::Reason;
use casebook_profile::Obstacle;

/// What a repair does with a line of a recording.
#[derive(Clone, Copy, Debug, PartialEq, Eq)]
pub struct CaseLine {
    /// The line's number.
    pub number: u32,
    /// The session that ran the line.
    pub session: u32,
    /// What becomes of it.
    pub fate: Fate,
    /// Why it is run again, or `None` if it isn't.
    pub reason: Option<Reason>,
    /// Why it isn't understood or has to be run for real, or `None` if neither is so.
    pub obstacle: Option<Obstacle>,
    /// Whether it stands as it was observed on a machine.
    pub is_observed: bool,
}
