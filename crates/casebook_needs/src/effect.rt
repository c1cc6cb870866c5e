//! What a line did at a path.
ghost use Rattle.std.specs.Prelude.{◌≡◌};
ghost use Rattle.casebook_needs.specs.Line.{effect_path};

use retro_path::Path;

/// What a line did at a path that it changed.
#[derive(Drop)]
pub enum Effect {
    /// It appended to a file: the old bytes are at the front of the new ones.
    Append(Path),
    /// It did anything else: it made, replaced or removed what is there.
    Other(Path),
}

impl Effect {
    /// Returns the path.
    pub fn path(&self) -> &Path
        ensures { result.now ≡ effect_path self.now }
    {
        match self {
            Effect::Append(path) | Effect::Other(path) => path,
        }
    }
}
