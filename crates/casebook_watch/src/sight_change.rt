//! Changes of sights.
use crate::sight::Sight;
use retro_path::Path;

/// A path whose sight differs between two looks.
#[derive(Drop)]
pub struct SightChange {
    /// The path.
    pub path: Path,
    /// Its new sight, or `None` if nothing is there any more.
    pub sight: Option<Sight>,
}
