//! The commands of the recorder, as `clap` reads them.
ghost use Rattle.std.specs.Prelude.{◌≡◌, [], codes, false, IfOk};
ghost use Rattle.clap.specs.Words.{app_of};
ghost use Rattle.clap.specs.declared.builder.command.Command.TheViews.{out-Command as fields_of};
ghost use Rattle.casebook_recorder_cli.specs.Words.{import_rules, observe_rules, status_rules};
ghost use Rattle.retro_edge.specs.Rules.{command};

use crate::NoMem;
use clap::Command;
use retro_edge::{bare_command, flag, option, word, words};
use std::alloc::Global;

/// Returns the command that takes a record, or makes a spool.
pub fn observe_command<'a>(alloc: Global) -> Result<Command<'a>, NoMem>
    ensures shape { IfOk result (λ c.
        app_of c ≡ record { top = command (codes "observe") observe_rules; subs = [] }) }
    ensures local { IfOk result (λ c. (fields_of c).has_globals ≡ false) }
{
    bare_command(alloc, "observe")?
        .arg(flag(alloc, "start"))?
        .arg(word(alloc, "spool"))?
        .arg(words(alloc, "folder"))
}

/// Returns the command that writes the case of a spool.
pub fn import_command<'a>(alloc: Global) -> Result<Command<'a>, NoMem>
    ensures shape { IfOk result (λ c.
        app_of c ≡ record { top = command (codes "import") import_rules; subs = [] }) }
    ensures local { IfOk result (λ c. (fields_of c).has_globals ≡ false) }
{
    bare_command(alloc, "import")?.arg(word(alloc, "spool"))
}

/// Returns the command that says what a spool has.
pub fn status_command<'a>(alloc: Global) -> Result<Command<'a>, NoMem>
    ensures shape { IfOk result (λ c.
        app_of c ≡ record { top = command (codes "status") status_rules; subs = [] }) }
    ensures local { IfOk result (λ c. (fields_of c).has_globals ≡ false) }
{
    bare_command(alloc, "status")?
        .arg(word(alloc, "spool"))?
        .arg(option(alloc, "who"))
}
