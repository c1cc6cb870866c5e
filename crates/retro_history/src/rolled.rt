//! Results of rollbacks.
use retro_tree::Value;

/// The result of a rollback: what was in a cell before a line, and the checkpoint that it starts
/// from.
#[derive(Drop)]
pub struct Rolled {
    /// The number of the last checkpoint before the line, or 0 if there is none.
    pub from: u32,
    /// The value of that checkpoint with the growths between it and the line.
    pub value: Value,
}
