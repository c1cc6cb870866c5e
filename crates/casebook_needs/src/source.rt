//! Where a need comes from.
ghost use Rattle.std.specs.Prelude.{◌≡◌, IfOk};

use crate::NoMem;
use retro_path::Path;

/// Why the answer to a query can matter to a line.
#[derive(Drop, Clone)]
pub enum Source {
    /// The line read the file.
    Read,
    /// It listed the directory.
    Listed,
    /// It changed the file other than by an append.
    Written,
    /// A word of it names the path, or a directory that the path is below.
    Named,
    /// A word of a text that it read names the path.
    InScript(Path),
    /// It names the variable, or the status, after a dollar sign; or a word of it begins with a
    /// tilde, which stands for the value of `HOME`.
    Variable,
    /// It is typed in the session's directory.
    Directory,
    /// The functions, aliases and options of the session are there.
    Shell,
}

impl Source {
    /// Returns a copy.
    pub fn copy(&self) -> Result<Source, NoMem>
        ensures { IfOk result (λ copy. copy ≡ self.now) }
    {
        self.clone()
    }
}
