//! Lists that are being read (XCU 2.9.3).

ghost use Rattle.std.specs.Prelude.{◌≡◌, map, option_map, true, false};
ghost use Rattle.retro_syntax.specs.Parsing;
ghost use Rattle.retro_syntax.specs.View.{and_or_of, commands_of, view};
ghost use Rattle.retro_syntax.specs.inner.ParserViews.{open_view};

use crate::tree::{AndOr, Command, Commands, Connector, Pipeline};
use std::alloc::Global;

/// A list that is being read, up to the pending command.
#[derive(Drop)]
pub struct Open {
    /// The and-or lists that a `;` follows.
    pub and_ors: Vec<AndOr<Command>>,
    /// The pipelines of the pending and-or list, each with the connector after it.
    pub pipelines: Vec<(Pipeline<Command>, Connector)>,
    /// Whether the pending pipeline begins with `!`.
    pub negated: bool,
}

impl Open {
    /// Returns an empty list.
    pub fn new(alloc: Global) -> Open
        ensures { open_view result ≡ Parsing.empty_list }
    {
        Open {
            and_ors: Vec::new(alloc),
            pipelines: Vec::new(alloc),
            negated: false,
        }
    }

    /// Ends the list with a command. Returns the and-or lists before the last, and the last.
    fn end_and_or(self, command: Command) -> (Vec<AndOr<Command>>, AndOr<Command>)
        ensures before { map (and_or_of view) result.0.items ≡ (open_view self).and_ors }
        ensures last { and_or_of view result.1 ≡ Parsing.and_or (open_view self) (view command) }
    {
        let last = Pipeline {
            negated: self.negated,
            command,
        };
        (
            self.and_ors,
            AndOr {
                before: self.pipelines,
                last,
            },
        )
    }

    /// Ends the list with a command, and returns it.
    pub fn end_with(self, command: Command) -> Commands<Command>
        ensures { commands_of view result
            ≡ Parsing.listed (open_view self).and_ors
            (Parsing.and_or (open_view self) (view command)) false }
    {
        let (before, last) = self.end_and_or(command);
        Commands {
            before,
            last,
            final_semicolon: false,
        }
    }

    /// Ends the list with its last `;`, and returns it. Returns `None` if the list can't end
    /// there.
    pub fn end_with_semicolon(self) -> Option<Commands<Command>>
        ensures { option_map (commands_of view) result ≡ Parsing.may_end (open_view self) }
    {
        if self.negated || self.pipelines.len() != 0 {
            return None;
        }
        let mut before = self.and_ors;
        let last = before.pop()?;
        Some(Commands {
            before,
            last,
            final_semicolon: true,
        })
    }
}
