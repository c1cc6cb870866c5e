//! The utilities by their names.
ghost use Rattle.std.specs.Prelude.{◌≡◌};
ghost use Rattle.retro_text.specs.Utility.{name_of, utility_named};

/// A utility (XCU chapter 4).
#[derive(Clone, Copy, Debug, PartialEq, Eq)]
pub enum Utility {
    Echo,
    True,
    False,
    Colon,
    Pwd,
    Cd,
    Id,
    Test,
    Bracket,
    Cat,
    Tee,
    Cut,
    Grep,
    Mkdir,
    Rm,
    Cp,
    Mv,
}

impl Utility {
    /// Returns the utility that has a name, or `None` if none has it.
    #[tactic(auto, unfolding(crate::specs::Utility::utility_named))]
    pub fn of(name: &str) -> Option<Utility>
        ensures { result ≡ utility_named name.now }
    {
        match name {
            "echo" => Some(Utility::Echo),
            "true" => Some(Utility::True),
            "false" => Some(Utility::False),
            ":" => Some(Utility::Colon),
            "pwd" => Some(Utility::Pwd),
            "cd" => Some(Utility::Cd),
            "id" => Some(Utility::Id),
            "test" => Some(Utility::Test),
            "[" => Some(Utility::Bracket),
            "cat" => Some(Utility::Cat),
            "tee" => Some(Utility::Tee),
            "cut" => Some(Utility::Cut),
            "grep" => Some(Utility::Grep),
            "mkdir" => Some(Utility::Mkdir),
            "rm" => Some(Utility::Rm),
            "cp" => Some(Utility::Cp),
            "mv" => Some(Utility::Mv),
            _ => None,
        }
    }

    /// Returns the name of the utility.
    pub fn name(self) -> &'static str
        ensures { result.now ≡ name_of self }
    {
        match self {
            Utility::Echo => "echo",
            Utility::True => "true",
            Utility::False => "false",
            Utility::Colon => ":",
            Utility::Pwd => "pwd",
            Utility::Cd => "cd",
            Utility::Id => "id",
            Utility::Test => "test",
            Utility::Bracket => "[",
            Utility::Cat => "cat",
            Utility::Tee => "tee",
            Utility::Cut => "cut",
            Utility::Grep => "grep",
            Utility::Mkdir => "mkdir",
            Utility::Rm => "rm",
            Utility::Cp => "cp",
            Utility::Mv => "mv",
        }
    }
}
