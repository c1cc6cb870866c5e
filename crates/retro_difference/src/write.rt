//! Writes of an overlay's entries.
use retro_tree::{Bytes, Value};

/// What a write does to a cell's entry of an overlay.
#[derive(Drop)]
pub(crate) enum Write {
    /// The entry stays as it is.
    Keep,
    /// The entry becomes a value.
    Set(Value),
    /// The entry grows by bytes, in place.
    Grow(Bytes),
}
