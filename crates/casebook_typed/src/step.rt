//! What happened at records, with numbers in place of names.

/// What happened in a session.
#[derive(Clone, Copy, Debug, Drop, PartialEq, Eq)]
pub enum What {
    /// It started. This is the place of the session that started it, or 0.
    Start(usize),
    /// The line with this number began.
    Begin(u32),
    /// The line with this number ended.
    End(u32),
    /// It ended. So many lines had begun.
    Exit(u32),
}

/// What happened at a record.
#[derive(Clone, Copy, Debug, Drop, PartialEq, Eq)]
pub struct Step {
    /// The place of its session among the sessions, counted from 1.
    pub session: usize,
    /// What happened there.
    pub what: What,
}
