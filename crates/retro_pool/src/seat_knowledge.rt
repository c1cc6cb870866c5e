//! What the seats of a board know of it. The proofs speak of these values; no call makes one.
use std::collections::LinkedList;

/// The list of a thief that came back.
pub struct Returned {
    /// The number of the thief's seat.
    pub seat: u64,
    /// The jobs that the thief took.
    pub taken: LinkedList<u32>,
}

/// What a seat knows.
pub struct SeatKnowledge {
    /// Whether this is the knowledge of a seat. A thief that came back knows nothing.
    pub live: bool,
    /// Whether this is the knowledge of the owner. What is said of `seats`, `dealt` and `back`
    /// below is known to the owner alone.
    pub owns: bool,
    /// The number of the seat. The owner's is 0.
    pub seat: u64,
    /// The number of seats.
    pub seats: u64,
    /// The number of jobs that the board has room for.
    pub room: u64,
    /// The dealt jobs, in order.
    pub dealt: LinkedList<u32>,
    /// The jobs that the seat took, in order.
    pub taken: LinkedList<u32>,
    /// The lists of the thieves that came back.
    pub back: LinkedList<Returned>,
}
