//! What commands are made of, for `clap`.
ghost use Rattle.std.specs.Prelude.{◌≡◌, ◌∷◌, [], false, IfOk};
ghost use Rattle.clap.specs.Words.{app_of, rule_of};
ghost use Rattle.clap.specs.declared.builder.command.Command.TheViews.{out-Command as fields_of};
ghost use Rattle.retro_edge.specs.Rules.{command, flag, help_flag, option, options, word, words};

use clap::{Arg, ArgAction, Command};
use retro_text::NoMem;
use std::alloc::Global;

/// Returns an option that takes one value.
pub fn option<'a>(alloc: Global, name: &'a str) -> Arg<'a>
    ensures rule { rule_of result ≡ option name.entry.now }
    ensures local { result.global ≡ false }
{
    Arg::new(alloc, name).long(name).action(ArgAction::Set)
}

/// Returns an option that takes one value each time that it is given.
pub fn options<'a>(alloc: Global, name: &'a str) -> Arg<'a>
    ensures rule { rule_of result ≡ options name.entry.now }
    ensures local { result.global ≡ false }
{
    Arg::new(alloc, name).long(name).action(ArgAction::Append)
}

/// Returns an option without a value.
pub fn flag<'a>(alloc: Global, name: &'a str) -> Arg<'a>
    ensures rule { rule_of result ≡ flag name.entry.now }
    ensures local { result.global ≡ false }
{
    Arg::new(alloc, name).long(name).action(ArgAction::SetTrue)
}

/// Returns a word that isn't an option.
pub fn word<'a>(alloc: Global, name: &'a str) -> Arg<'a>
    ensures rule { rule_of result ≡ word name.entry.now }
    ensures local { result.global ≡ false }
{
    Arg::new(alloc, name).action(ArgAction::Set)
}

/// Returns words that aren't options, after all other such words.
pub fn words<'a>(alloc: Global, name: &'a str) -> Arg<'a>
    ensures rule { rule_of result ≡ words name.entry.now }
    ensures local { result.global ≡ false }
{
    Arg::new(alloc, name).action(ArgAction::Append)
}

/// Returns the option that asks for help.
pub fn help_flag<'a>(alloc: Global) -> Arg<'a>
    ensures rule { rule_of result ≡ help_flag }
    ensures local { result.global ≡ false }
{
    Arg::new(alloc, "help")
        .long("help")
        .short('h')
        .action(ArgAction::SetTrue)
}

/// Returns a command that can be asked for help, and that is given nothing else.
pub fn bare_command<'a>(alloc: Global, name: &'a str) -> Result<Command<'a>, NoMem>
    ensures shape { IfOk result (λ c.
        app_of c ≡ record { top = command name.entry.now (help_flag ∷ []); subs = [] }) }
    ensures local { IfOk result (λ c. (fields_of c).has_globals ≡ false) }
{
    Command::new(alloc, name)
        .disable_help_flag(true)
        .arg(help_flag(alloc))
}
