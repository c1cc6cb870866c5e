//! The request that the words of the command line make, as `clap` reads them.
ghost use Rattle.std.specs.Prelude.{◌≡◌, ◌∷◌, [], false, codes, map, option_and_then, option_map, IfOk};
ghost use Rattle.std.specs.Prelude.{string_bytes};
ghost use Rattle.clap.specs.Words.{app_of, rule_of};
ghost use Rattle.clap.specs.declared.builder.command.Command.TheViews.{out-Command as fields_of};
ghost use Rattle.retro_keep.specs.declared.edit.Edit.TheVariants as edits;
ghost use Rattle.retro_json.specs.Replacements.{replacements_in};
ghost use Rattle.retro_text.specs.Numbers.{number_in};
ghost use Rattle.retro_cli.specs.Words.{option, edit_options, repair_options, command, bare};
ghost use Rattle.retro_cli.specs.Words.{program, required_option};
ghost use Rattle.retro_edge.specs.Calls.{Names, call_view, named_in};
ghost use Rattle.retro_cli.specs.Words.{command_request, edits_of, options_of, options_view};
ghost use Rattle.retro_cli.specs.Words.{list_in, request_view, request_in, words_fault, Means};
ghost use Rattle.retro_cli.specs.declared.words.WordsFault.TheVariants as faults;

use crate::repair_options::RepairOptions;
use crate::replacements::replacements_of;
use clap::{Arg, ArgAction, Command};
use retro_edge::{CallFault, CommandCall, numbers_in, read_call};
use retro_json::LogFault;
use retro_keep::Edit;
use retro_text::number_of;
use retro_tree::NoMem;
use std::alloc::{AllocFailed, Global};

/// What the program is asked to do.
#[derive(Drop)]
pub(crate) enum Request {
    /// Run the edited lines of a script.
    Replay { edits: Vec<Edit> },
    /// Record the lines of a script.
    Record,
    /// Check whether a log is a recording of its lines.
    Check,
    /// Repair a log, and report the repair.
    Repair(RepairOptions),
    /// Repair a log, and write the log of the repaired recording.
    Relog(RepairOptions),
    /// Write the log that begins at this line.
    Trim { at: u32 },
}

/// Why words make no request.
#[derive(Clone, Copy, Debug, PartialEq, Eq)]
pub(crate) enum WordsFault {
    /// Allocation failed.
    NoMem,
    /// The words are bad (refusal 31).
    BadWords,
}

impl From<NoMem> for WordsFault {
    ghost from_gives = { λ _ e. e ≡ faults.NoMem };

    fn from(_error: NoMem) -> WordsFault {
        WordsFault::NoMem
    }
}

impl From<LogFault> for WordsFault {
    ghost from_gives = { λ fault e. e ≡ words_fault fault };

    fn from(fault: LogFault) -> WordsFault {
        match fault {
            LogFault::NoMem => WordsFault::NoMem,
            LogFault::Refused(_) => WordsFault::BadWords,
        }
    }
}

impl<T: Drop> From<AllocFailed<T>> for WordsFault {
    ghost from_gives = { λ _ e. e ≡ faults.NoMem };

    fn from(_error: AllocFailed<T>) -> WordsFault {
        WordsFault::NoMem
    }
}

/// Returns an option that takes one value, with its default.
fn value_option<'a>(alloc: Global, name: &'a str, default: &'a str) -> Arg<'a>
    ensures rule { rule_of result ≡ option name.entry.now default.entry.now }
    ensures local { result.global ≡ false }
{
    Arg::new(alloc, name)
        .long(name)
        .action(ArgAction::Set)
        .default_value(default)
}

/// Returns an option that takes one value, and that has to be given.
fn required_option<'a>(alloc: Global, name: &'a str) -> Arg<'a>
    ensures rule { rule_of result ≡ required_option name.entry.now }
    ensures local { result.global ≡ false }
{
    Arg::new(alloc, name)
        .long(name)
        .action(ArgAction::Set)
        .required(true)
}

/// Returns a command that has the options `--cancel` and `--replace`. By default they edit no line.
fn editing_command<'a>(alloc: Global, name: &'a str) -> Result<Command<'a>, NoMem>
    ensures shape { IfOk result (λ c.
        app_of c ≡ record { top = command name.entry.now edit_options; subs = [] }) }
    ensures local { IfOk result (λ c. (fields_of c).has_globals ≡ false) }
{
    Command::new(alloc, name)
        .arg(value_option(alloc, "cancel", ""))?
        .arg(value_option(alloc, "replace", "[]"))
}

/// Returns a command that has the options of a repair: `--cancel`, `--replace`, `--workers` and
/// `--cuts`.
fn repairing_command<'a>(alloc: Global, name: &'a str) -> Result<Command<'a>, NoMem>
    ensures shape { IfOk result (λ c.
        app_of c ≡ record { top = command name.entry.now repair_options; subs = [] }) }
    ensures local { IfOk result (λ c. (fields_of c).has_globals ≡ false) }
{
    editing_command(alloc, name)?
        .arg(value_option(alloc, "workers", "0"))?
        .arg(value_option(alloc, "cuts", "64"))
}

/// Returns the command that trims a log. Its option `--at` has to be given.
fn trimming_command<'a>(alloc: Global) -> Result<Command<'a>, NoMem>
    ensures shape { IfOk result (λ c. app_of c
        ≡ record { top = command (codes "trim") (required_option (codes "at") ∷ []); subs = [] }) }
    ensures local { IfOk result (λ c. (fields_of c).has_globals ≡ false) }
{
    Command::new(alloc, "trim").arg(required_option(alloc, "at"))
}

/// Returns a command without options.
fn plain_command<'a>(alloc: Global, name: &'a str) -> Command<'a>
    ensures shape { app_of result ≡ record { top = command name.entry.now []; subs = [] } }
    ensures local { (fields_of result).has_globals ≡ false }
{
    Command::new(alloc, name)
}

/// Returns the program's command line without its commands. One is required, and `clap` adds no
/// help.
fn bare_command<'a>(alloc: Global) -> Command<'a>
    ensures { app_of result ≡ bare }
{
    Command::new(alloc, "retro")
        .disable_help_flag(true)
        .disable_help_subcommand(true)
        .subcommand_required(true)
}

/// Returns the program's command line with all its commands.
fn program_command<'a>(alloc: Global) -> Result<Command<'a>, NoMem>
    ensures { IfOk result (λ c. app_of c ≡ program) }
{
    bare_command(alloc)
        .subcommand(editing_command(alloc, "replay")?)?
        .subcommand(plain_command(alloc, "record"))?
        .subcommand(plain_command(alloc, "check"))?
        .subcommand(repairing_command(alloc, "repair")?)?
        .subcommand(repairing_command(alloc, "relog")?)?
        .subcommand(trimming_command(alloc)?)
}

/// Returns the command that words name, as `clap` reads them.
fn call_in<'a>(alloc: Global, words: &'a [String]) -> Result<Option<CommandCall<'a>>, CallFault>
    ensures { Names result (named_in program (map string_bytes words.entry.now)) }
{
    read_call(program_command(alloc)?, words)
}

/// Returns the numbers of a list: no numbers for an empty text, and otherwise numbers separated by
/// single commas. Fails with `BadWords` for any other text.
#[tactic(auto, unfolding(crate::specs::Words::list_in))]
fn list_of(alloc: Global, text: &str) -> Result<Vec<u32>, WordsFault>
    ensures { Means (λ v. v.items) result (list_in text.now) }
{
    if text.is_empty() {
        return Ok(Vec::new(alloc));
    }
    numbers_in(alloc, text)?.ok_or(WordsFault::BadWords)
}

/// Returns the numbers of an option's list. Fails with `BadWords` if the command doesn't have the
/// option, or if its text isn't a list of numbers.
fn list_option(alloc: Global, text: Option<&str>) -> Result<Vec<u32>, WordsFault>
    ensures { Means (λ v. v.items) result
        (option_and_then list_in (option_map (λ s. s.now) text.entry)) }
{
    match text {
        Some(text) => list_of(alloc, text),
        None => Err(WordsFault::BadWords),
    }
}

/// Returns the replacements that an option lists. Fails with `BadWords` if the command doesn't have
/// the option, or if its text isn't a list of replacements.
fn replacements_option(alloc: Global, text: Option<&str>) -> Result<Vec<Edit>, WordsFault>
    ensures { Means (λ v. v.items) result
        (option_and_then replacements_in (option_map (λ s. s.now) text.entry)) }
{
    match text {
        Some(text) => replacements_of(alloc, text),
        None => Err(WordsFault::BadWords),
    }
}

/// Returns the edits that leave out the lines with these numbers.
fn cancellations(alloc: Global, cancel: &[u32]) -> Result<Vec<Edit>, NoMem>
    ensures { IfOk result (λ v. v.items ≡ map edits.Cancel cancel.now) }
{
    let mut found = Vec::new(alloc);
    for number in cancel {
        found.push(Edit::Cancel(*number))?;
    }
    Ok(found)
}

/// Returns the edits of lines: of those that are left out, and then of those whose text is
/// replaced. Fails with `BadWords` if the command has no such options, or if one is malformed.
fn edits_of(alloc: Global, call: &CommandCall<'_>) -> Result<Vec<Edit>, WordsFault>
    ensures { Means (λ v. v.items) result (edits_of (call_view call.now)) }
{
    let cancel = list_option(alloc, call.text_of("cancel"))?;
    let mut replacements = replacements_option(alloc, call.text_of("replace"))?;
    let mut edits = cancellations(alloc, &cancel)?;
    edits.append(&mut replacements)?;
    Ok(edits)
}

/// Returns the number of an option. Fails with `BadWords` if the command doesn't have the option,
/// or if its text isn't a number.
fn number_option(text: Option<&str>) -> Result<u32, WordsFault>
    ensures { Means (λ n. n) result (option_and_then number_in (option_map (λ s. s.now) text.entry)) }
{
    match text {
        Some(text) => number_of(text).ok_or(WordsFault::BadWords),
        None => Err(WordsFault::BadWords),
    }
}

/// Returns the options of a repair. Fails with `BadWords` if the command doesn't have them, or if
/// one is malformed.
fn options_of(alloc: Global, call: &CommandCall<'_>) -> Result<RepairOptions, WordsFault>
    ensures { Means options_view result (options_of (call_view call.now)) }
{
    Ok(RepairOptions {
        edits: edits_of(alloc, call)?,
        workers: number_option(call.text_of("workers"))? as usize,
        cuts: list_option(alloc, call.text_of("cuts"))?,
    })
}

/// Returns the request of a command. Fails with `BadWords` if the value of an option is malformed.
#[tactic(auto, unfolding(crate::specs::Words::command_request))]
fn command_request(alloc: Global, call: &CommandCall<'_>) -> Result<Request, WordsFault>
    ensures { Means request_view result (command_request (call_view call.now)) }
{
    match call.name {
        "replay" => Ok(Request::Replay {
            edits: edits_of(alloc, call)?,
        }),
        "record" => Ok(Request::Record),
        "check" => Ok(Request::Check),
        "repair" => Ok(Request::Repair(options_of(alloc, call)?)),
        "relog" => Ok(Request::Relog(options_of(alloc, call)?)),
        "trim" => Ok(Request::Trim {
            at: number_option(call.text_of("at"))?,
        }),
        _ => Err(WordsFault::BadWords),
    }
}

/// Returns the request that words make. The first word is the program's name.
///
/// Fails with `BadWords` if `clap` refuses the words, as it does a request for help, or if the
/// value of an option is malformed.
#[tactic(auto, unfolding(crate::specs::Words::request_in))]
pub(crate) fn read_words(alloc: Global, words: &[String]) -> Result<Request, WordsFault>
    ensures { Means request_view result (request_in (map string_bytes words.now)) }
{
    match call_in(alloc, words) {
        Ok(Some(call)) => command_request(alloc, &call),
        Ok(None) | Err(CallFault::Refused) => Err(WordsFault::BadWords),
        Err(CallFault::NoMem) => Err(WordsFault::NoMem),
    }
}
