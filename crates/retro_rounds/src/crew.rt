//! The threads of a repair.

/// The threads that may run jobs beside the caller's.
#[derive(Drop)]
pub(crate) struct Crew<'r, R> {
    /// The runtime, which starts threads.
    pub(crate) rt: &'r R,
    /// The greatest number of threads.
    pub(crate) size: usize,
}

impl<R> Crew<'_, R> {
    /// Returns the number of threads for a round with so many jobs. The caller's thread runs jobs
    /// too.
    pub(crate) fn threads_for(&self, jobs: usize) -> usize {
        self.size.min(jobs.saturating_sub(1))
    }
}
