//! The keys of documents.
ghost use Rattle.std.specs.Prelude.{◌≡◌, IsTrue};
ghost use Rattle.std.specs.List.{list_all};
ghost use Rattle.casebook_text.specs.SafeText.{is_printable};
ghost use Rattle.casebook_check.specs.Keys.{key_name};

/// A key of scripts or logs.
#[derive(Clone, Copy, Debug, PartialEq, Eq)]
pub enum Key {
    /// The version of a script.
    Script,
    /// The version of a log.
    Log,
    /// The number of the line at which a log begins.
    From,
    /// The directories and files.
    Tree,
    /// The sessions.
    Sessions,
    /// The lines.
    Lines,
}

impl Key {
    /// Returns the text of the key.
    pub fn name(self) -> &'static str
        ensures value { result.now ≡ key_name self }
        ensures printable { IsTrue (list_all is_printable result.now) }
    {
        match self {
            Key::Script => "script",
            Key::Log => "log",
            Key::From => "from",
            Key::Tree => "tree",
            Key::Sessions => "sessions",
            Key::Lines => "lines",
        }
    }
}
