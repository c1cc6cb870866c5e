//! The commands about folders, as `clap` reads them.
ghost use Rattle.std.specs.Prelude.{◌≡◌, [], codes, false, IfOk};
ghost use Rattle.clap.specs.Words.{app_of};
ghost use Rattle.clap.specs.declared.builder.command.Command.TheViews.{out-Command as fields_of};
ghost use Rattle.casebook_folder_cli.specs.RestoreWords.{edit_rules, plan_rules, repair_rules};
ghost use Rattle.casebook_folder_cli.specs.RestoreWords.{restore_rules};
ghost use Rattle.casebook_folder_cli.specs.ScriptWords.{script_rules};
ghost use Rattle.casebook_folder_cli.specs.Words.{compare_rules, compared_rules, snapshot_rules};
ghost use Rattle.casebook_folder_cli.specs.Words.{source_rules};
ghost use Rattle.retro_edge.specs.Rules.{command};

use crate::NoMem;
use clap::Command;
use retro_edge::{bare_command, flag, option, options, word};
use std::alloc::Global;

/// Returns the command that compares a recording, with the log and what is compared alone.
fn compared_command<'a>(alloc: Global) -> Result<Command<'a>, NoMem>
    ensures shape { IfOk result (λ c.
        app_of c ≡ record { top = command (codes "compare") compared_rules; subs = [] }) }
    ensures local { IfOk result (λ c. (fields_of c).has_globals ≡ false) }
{
    bare_command(alloc, "compare")?
        .arg(word(alloc, "log"))?
        .arg(word(alloc, "folder"))?
        .arg(option(alloc, "tar"))?
        .arg(flag(alloc, "mounts"))
}

/// Returns the command that compares a recording with a snapshot.
pub fn compare_command<'a>(alloc: Global) -> Result<Command<'a>, NoMem>
    ensures shape { IfOk result (λ c.
        app_of c ≡ record { top = command (codes "compare") compare_rules; subs = [] }) }
    ensures local { IfOk result (λ c. (fields_of c).has_globals ≡ false) }
{
    compared_command(alloc)?
        .arg(option(alloc, "at"))?
        .arg(options(alloc, "skip"))?
        .arg(option(alloc, "snapshot"))
}

/// Returns the command that takes a snapshot, with what it is taken of alone.
fn source_command<'a>(alloc: Global) -> Result<Command<'a>, NoMem>
    ensures shape { IfOk result (λ c.
        app_of c ≡ record { top = command (codes "snapshot") source_rules; subs = [] }) }
    ensures local { IfOk result (λ c. (fields_of c).has_globals ≡ false) }
{
    bare_command(alloc, "snapshot")?
        .arg(word(alloc, "folder"))?
        .arg(option(alloc, "tar"))?
        .arg(flag(alloc, "mounts"))
}

/// Returns the command that takes a snapshot of a folder or of a stream.
pub fn snapshot_command<'a>(alloc: Global) -> Result<Command<'a>, NoMem>
    ensures shape { IfOk result (λ c.
        app_of c ≡ record { top = command (codes "snapshot") snapshot_rules; subs = [] }) }
    ensures local { IfOk result (λ c. (fields_of c).has_globals ≡ false) }
{
    source_command(alloc)?
        .arg(option(alloc, "at"))?
        .arg(options(alloc, "skip"))
}

/// Returns the command that makes a script of a snapshot.
pub fn script_command<'a>(alloc: Global) -> Result<Command<'a>, NoMem>
    ensures shape { IfOk result (λ c.
        app_of c ≡ record { top = command (codes "script") script_rules; subs = [] }) }
    ensures local { IfOk result (λ c. (fields_of c).has_globals ≡ false) }
{
    bare_command(alloc, "script")?
        .arg(word(alloc, "document"))?
        .arg(option(alloc, "sessions"))?
        .arg(option(alloc, "lines"))
}

/// Returns the command that restores a folder, with its log and its edits alone.
fn edit_command<'a>(alloc: Global) -> Result<Command<'a>, NoMem>
    ensures shape { IfOk result (λ c.
        app_of c ≡ record { top = command (codes "restore") edit_rules; subs = [] }) }
    ensures local { IfOk result (λ c. (fields_of c).has_globals ≡ false) }
{
    bare_command(alloc, "restore")?
        .arg(word(alloc, "log"))?
        .arg(option(alloc, "cancel"))?
        .arg(option(alloc, "replace"))
}

/// Returns the command that restores a folder, with all that is about its repair.
fn repair_command<'a>(alloc: Global) -> Result<Command<'a>, NoMem>
    ensures shape { IfOk result (λ c.
        app_of c ≡ record { top = command (codes "restore") repair_rules; subs = [] }) }
    ensures local { IfOk result (λ c. (fields_of c).has_globals ≡ false) }
{
    edit_command(alloc)?
        .arg(option(alloc, "workers"))?
        .arg(option(alloc, "cuts"))
}

/// Returns the command that restores a folder, without what is done with the plan.
fn plan_command<'a>(alloc: Global) -> Result<Command<'a>, NoMem>
    ensures shape { IfOk result (λ c.
        app_of c ≡ record { top = command (codes "restore") plan_rules; subs = [] }) }
    ensures local { IfOk result (λ c. (fields_of c).has_globals ≡ false) }
{
    repair_command(alloc)?
        .arg(option(alloc, "root"))?
        .arg(option(alloc, "at"))?
        .arg(options(alloc, "only"))
}

/// Returns the command that restores a folder.
pub fn restore_command<'a>(alloc: Global) -> Result<Command<'a>, NoMem>
    ensures shape { IfOk result (λ c.
        app_of c ≡ record { top = command (codes "restore") restore_rules; subs = [] }) }
    ensures local { IfOk result (λ c. (fields_of c).has_globals ≡ false) }
{
    plan_command(alloc)?
        .arg(flag(alloc, "apply"))?
        .arg(option(alloc, "undo"))
}
