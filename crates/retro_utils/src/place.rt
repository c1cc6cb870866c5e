//! Where utilities run.

/// Where a utility runs.
#[derive(Clone, Copy, Debug, PartialEq, Eq)]
pub struct Place {
    /// The number of the session.
    pub sid: u32,
    /// Whether it runs in a subshell of the session (XCU 2.12).
    pub sub: bool,
}
