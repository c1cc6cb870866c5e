//! The command that the words of a command line name, as `clap` reads them.
ghost use Rattle.std.specs.Prelude.{◌≡◌, true, map, option_map, string_bytes};
ghost use Rattle.clap.specs.Words.{all_of, app_of, first_of, is_simple_and_free};
ghost use Rattle.retro_edge.specs.Calls.{Names, call_view, named_in};
ghost use Rattle.retro_edge.specs.declared.call.CallFault.TheVariants as faults;

use clap::error::ErrorKind;
use clap::{ArgMatches, Command};
use retro_text::NoMem;

/// Why words name no command.
#[derive(Clone, Copy, Debug, PartialEq, Eq)]
pub enum CallFault {
    /// Allocation failed.
    NoMem,
    /// `clap` refuses the words.
    Refused,
}

impl From<NoMem> for CallFault {
    ghost from_gives = { λ _ e. e ≡ faults.NoMem };

    fn from(_error: NoMem) -> CallFault {
        CallFault::NoMem
    }
}

/// The command that words name, and what they give it.
#[derive(Drop)]
pub struct CommandCall<'a> {
    /// The command's name.
    pub name: &'a str,
    /// The words and options that it is given.
    pub given: ArgMatches<'a>,
}

impl<'a> CommandCall<'a> {
    /// Returns the text of an option or of a word. Returns `None` if it isn't given and has no
    /// default, or if the command doesn't have it.
    pub fn text_of(&self, name: &str) -> Option<&'a str>
        ensures { option_map (λ s. s.now) result ≡ first_of name.now (call_view self.now).rows }
    {
        self.given.get_str(name)
    }

    /// Returns the texts of an option that can be given several times, in order. Returns `None` if
    /// it isn't given, or if the command doesn't have it.
    pub fn texts_of(&self, name: &str) -> Option<&[&'a str]>
        ensures { option_map (λ texts. map (λ s. s.now) texts.now) result
            ≡ all_of name.now (call_view self.now).rows }
    {
        self.given.get_strs(name)
    }
}

/// Returns the command that words name, or `None` if they name none. The first word is the
/// program's name. Fails with `Refused` if `clap` refuses the words for this program.
pub fn read_call<'a>(
    program: Command<'a>,
    words: &'a [String],
) -> Result<Option<CommandCall<'a>>, CallFault>
    requires { is_simple_and_free (app_of program) ≡ true }
    ensures { Names result (named_in (app_of program.entry) (map string_bytes words.entry.now)) }
{
    match program.try_get_matches_from(words) {
        Ok(mut matches) => match matches.remove_subcommand() {
            Some((name, given)) => Ok(Some(CommandCall { name, given })),
            None => Ok(None),
        },
        Err(error) => match error.kind() {
            ErrorKind::OutOfMemory => Err(CallFault::NoMem),
            _ => Err(CallFault::Refused),
        },
    }
}
