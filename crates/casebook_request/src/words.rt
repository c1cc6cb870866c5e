//! The command that the words of the command line name, as `clap` reads them.
ghost use Rattle.std.specs.Prelude.{◌≡◌, [], false, codes, map, IfOk};
ghost use Rattle.std.specs.Prelude.{string_bytes};
ghost use Rattle.clap.specs.Words.{app_of};
ghost use Rattle.clap.specs.declared.builder.command.Command.TheViews.{out-Command as fields_of};
ghost use Rattle.retro_edge.specs.Calls.{Names, named_in};
ghost use Rattle.retro_edge.specs.Rules.{command};
ghost use Rattle.casebook_request.specs.Request.{folder_fault, recorder_fault};
ghost use Rattle.casebook_request.specs.Words.{bare, cat_rules, check_rules, edit_rules};
ghost use Rattle.casebook_request.specs.Words.{help_rules, lines_rules, log_rules, number_rules};
ghost use Rattle.casebook_request.specs.Words.{page_rules, path_rules, pattern_rules, program};
ghost use Rattle.casebook_request.specs.Words.{repair_rules, show_rules, without_recorder, without_repairs};
ghost use Rattle.casebook_request.specs.declared.words.WordsFault.TheVariants as faults;

use crate::NoMem;
use crate::problem::Problem;
use casebook_folder_cli::{
    FolderFault, compare_command, restore_command, script_command, snapshot_command,
};
use casebook_recorder_cli as recorder;
use clap::Command;
use retro_edge::{CallFault, CommandCall, bare_command, flag, help_flag, option, read_call, word};
use std::alloc::{AllocFailed, Global};

/// Why words make no request.
#[derive(Clone, Copy, Debug, PartialEq, Eq)]
pub enum WordsFault {
    /// Allocation failed.
    NoMem,
    /// The words are bad.
    Bad(Problem),
}

impl From<NoMem> for WordsFault {
    ghost from_gives = { λ _ e. e ≡ faults.NoMem };

    fn from(_error: NoMem) -> WordsFault {
        WordsFault::NoMem
    }
}

impl From<FolderFault> for WordsFault {
    ghost from_gives = { λ fault e. e ≡ folder_fault fault };

    fn from(fault: FolderFault) -> WordsFault {
        match fault {
            FolderFault::NoMem => WordsFault::NoMem,
            FolderFault::Bad(problem) => WordsFault::Bad(Problem::Folder(problem)),
        }
    }
}

impl From<recorder::WordsFault> for WordsFault {
    ghost from_gives = { λ fault e. e ≡ recorder_fault fault };

    fn from(fault: recorder::WordsFault) -> WordsFault {
        match fault {
            recorder::WordsFault::NoMem => WordsFault::NoMem,
            recorder::WordsFault::Bad(problem) => WordsFault::Bad(Problem::Recorder(problem)),
        }
    }
}

impl<T: Drop> From<AllocFailed<T>> for WordsFault {
    ghost from_gives = { λ _ e. e ≡ faults.NoMem };

    fn from(_error: AllocFailed<T>) -> WordsFault {
        WordsFault::NoMem
    }
}

/// Returns the command that says how the program is used.
fn help_command<'a>(alloc: Global) -> Result<Command<'a>, NoMem>
    ensures shape { IfOk result (λ c.
        app_of c ≡ record { top = command (codes "help") help_rules; subs = [] }) }
    ensures local { IfOk result (λ c. (fields_of c).has_globals ≡ false) }
{
    bare_command(alloc, "help")?.arg(word(alloc, "command"))
}

/// Returns the command that shows rows of lines, with its log and its options of numbers alone.
fn lines_by_number<'a>(alloc: Global) -> Result<Command<'a>, NoMem>
    ensures shape { IfOk result (λ c.
        app_of c ≡ record { top = command (codes "lines") number_rules; subs = [] }) }
    ensures local { IfOk result (λ c. (fields_of c).has_globals ≡ false) }
{
    bare_command(alloc, "lines")?
        .arg(word(alloc, "log"))?
        .arg(option(alloc, "session"))?
        .arg(option(alloc, "from"))?
        .arg(option(alloc, "to"))
}

/// Adds the options of paths and of users to the command that shows rows of lines.
fn lines_by_path<'a>(alloc: Global) -> Result<Command<'a>, NoMem>
    ensures shape { IfOk result (λ c.
        app_of c ≡ record { top = command (codes "lines") path_rules; subs = [] }) }
    ensures local { IfOk result (λ c. (fields_of c).has_globals ≡ false) }
{
    lines_by_number(alloc)?
        .arg(option(alloc, "reads"))?
        .arg(option(alloc, "writes"))?
        .arg(option(alloc, "touches"))?
        .arg(option(alloc, "user"))
}

/// Adds the patterns to the command that shows rows of lines.
fn lines_by_pattern<'a>(alloc: Global) -> Result<Command<'a>, NoMem>
    ensures shape { IfOk result (λ c.
        app_of c ≡ record { top = command (codes "lines") pattern_rules; subs = [] }) }
    ensures local { IfOk result (λ c. (fields_of c).has_globals ≡ false) }
{
    lines_by_path(alloc)?
        .arg(option(alloc, "text"))?
        .arg(option(alloc, "shown"))
}

/// Returns the command that shows rows of lines.
fn lines_command<'a>(alloc: Global) -> Result<Command<'a>, NoMem>
    ensures shape { IfOk result (λ c.
        app_of c ≡ record { top = command (codes "lines") lines_rules; subs = [] }) }
    ensures local { IfOk result (λ c. (fields_of c).has_globals ≡ false) }
{
    lines_by_pattern(alloc)?
        .arg(option(alloc, "about"))?
        .arg(option(alloc, "format"))?
        .arg(flag(alloc, "unknown"))
}

/// Returns a command about a repair, with its log and its edits alone.
fn edit_command<'a>(alloc: Global, name: &'a str) -> Result<Command<'a>, NoMem>
    ensures shape { IfOk result (λ c.
        app_of c ≡ record { top = command name.entry.now edit_rules; subs = [] }) }
    ensures local { IfOk result (λ c. (fields_of c).has_globals ≡ false) }
{
    bare_command(alloc, name)?
        .arg(word(alloc, "log"))?
        .arg(option(alloc, "cancel"))?
        .arg(option(alloc, "replace"))?
        .arg(option(alloc, "about"))
}

/// Returns a command about a repair, with the options alone that all of them have.
fn repair_command<'a>(alloc: Global, name: &'a str) -> Result<Command<'a>, NoMem>
    ensures shape { IfOk result (λ c.
        app_of c ≡ record { top = command name.entry.now repair_rules; subs = [] }) }
    ensures local { IfOk result (λ c. (fields_of c).has_globals ≡ false) }
{
    edit_command(alloc, name)?
        .arg(option(alloc, "workers"))?
        .arg(option(alloc, "cuts"))
}

/// Returns the command that shows what a repair would do.
fn show_command<'a>(alloc: Global) -> Result<Command<'a>, NoMem>
    ensures shape { IfOk result (λ c.
        app_of c ≡ record { top = command (codes "show") show_rules; subs = [] }) }
    ensures local { IfOk result (λ c. (fields_of c).has_globals ≡ false) }
{
    repair_command(alloc, "show")?
        .arg(flag(alloc, "why"))?
        .arg(flag(alloc, "diff"))?
        .arg(option(alloc, "line"))?
        .arg(option(alloc, "format"))
}

/// Returns the command that writes the page of a repair.
fn page_command<'a>(alloc: Global) -> Result<Command<'a>, NoMem>
    ensures shape { IfOk result (λ c.
        app_of c ≡ record { top = command (codes "page") page_rules; subs = [] }) }
    ensures local { IfOk result (λ c. (fields_of c).has_globals ≡ false) }
{
    repair_command(alloc, "page")?
        .arg(option(alloc, "title"))?
        .arg(flag(alloc, "all"))
}

/// Returns the command that writes bytes of a repair.
fn cat_command<'a>(alloc: Global) -> Result<Command<'a>, NoMem>
    ensures shape { IfOk result (λ c.
        app_of c ≡ record { top = command (codes "cat") cat_rules; subs = [] }) }
    ensures local { IfOk result (λ c. (fields_of c).has_globals ≡ false) }
{
    repair_command(alloc, "cat")?
        .arg(word(alloc, "path"))?
        .arg(option(alloc, "line"))
}

/// Returns the command that writes a repair as a patch.
fn patch_command<'a>(alloc: Global) -> Result<Command<'a>, NoMem>
    ensures shape { IfOk result (λ c.
        app_of c ≡ record { top = command (codes "patch") repair_rules; subs = [] }) }
    ensures local { IfOk result (λ c. (fields_of c).has_globals ≡ false) }
{
    repair_command(alloc, "patch")
}

/// Returns the command that says whether a document is a recording.
fn check_command<'a>(alloc: Global) -> Result<Command<'a>, NoMem>
    ensures shape { IfOk result (λ c.
        app_of c ≡ record { top = command (codes "check") check_rules; subs = [] }) }
    ensures local { IfOk result (λ c. (fields_of c).has_globals ≡ false) }
{
    bare_command(alloc, "check")?.arg(word(alloc, "log"))
}

/// Returns the command that writes the log of a case.
fn log_command<'a>(alloc: Global) -> Result<Command<'a>, NoMem>
    ensures shape { IfOk result (λ c.
        app_of c ≡ record { top = command (codes "log") log_rules; subs = [] }) }
    ensures local { IfOk result (λ c. (fields_of c).has_globals ≡ false) }
{
    bare_command(alloc, "log")?.arg(word(alloc, "case"))
}

/// Returns the program's command line without its commands. Of `clap`'s own help nothing is left.
fn bare_program<'a>(alloc: Global) -> Result<Command<'a>, NoMem>
    ensures { IfOk result (λ c. app_of c ≡ bare) }
{
    Command::new(alloc, "casebook")
        .disable_help_flag(true)
        .disable_help_subcommand(true)
        .arg(help_flag(alloc))
}

/// Returns the program's command line with the commands that aren't about repairs.
fn program_without_repairs<'a>(alloc: Global) -> Result<Command<'a>, NoMem>
    ensures { IfOk result (λ c. app_of c ≡ without_repairs) }
{
    bare_program(alloc)?
        .subcommand(help_command(alloc)?)?
        .subcommand(lines_command(alloc)?)?
        .subcommand(check_command(alloc)?)
}

/// Returns the program's command line with the commands that aren't about the recorder.
fn program_without_recorder<'a>(alloc: Global) -> Result<Command<'a>, NoMem>
    ensures { IfOk result (λ c. app_of c ≡ without_recorder) }
{
    program_without_repairs(alloc)?
        .subcommand(show_command(alloc)?)?
        .subcommand(page_command(alloc)?)?
        .subcommand(snapshot_command(alloc)?)?
        .subcommand(compare_command(alloc)?)?
        .subcommand(restore_command(alloc)?)?
        .subcommand(script_command(alloc)?)
}

/// Returns the program's command line with all its commands.
fn program_command<'a>(alloc: Global) -> Result<Command<'a>, NoMem>
    ensures { IfOk result (λ c. app_of c ≡ program) }
{
    program_without_recorder(alloc)?
        .subcommand(recorder::observe_command(alloc)?)?
        .subcommand(recorder::import_command(alloc)?)?
        .subcommand(recorder::status_command(alloc)?)?
        .subcommand(log_command(alloc)?)?
        .subcommand(cat_command(alloc)?)?
        .subcommand(patch_command(alloc)?)
}

/// Returns the command that words name, as `clap` reads them, or `None` if they name none.
pub(crate) fn call_in<'a>(
    alloc: Global,
    words: &'a [String],
) -> Result<Option<CommandCall<'a>>, CallFault>
    ensures { Names result (named_in program (map string_bytes words.entry.now)) }
{
    read_call(program_command(alloc)?, words)
}
