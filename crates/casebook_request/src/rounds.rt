//! How lines are run ahead in parallel.

/// How lines are run ahead in parallel.
#[derive(Debug, Drop)]
pub struct Rounds {
    /// The number of threads beside the first one.
    pub workers: usize,
    /// The numbers of lines of the pieces. The last one is that of all further pieces.
    pub cuts: Vec<u32>,
}
