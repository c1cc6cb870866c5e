//! Redirections (XCU 2.7).
ghost use Rattle.std.specs.Prelude.{◌≡◌, IfOk, map};
ghost use Rattle.retro_local.specs.Runs.{Computes, Extends, ExtendsTree};
ghost use Rattle.retro_syntax.specs.View.{item_view};
ghost use Rattle.retro_tree.specs.declared.state.State.{State};
ghost use Rattle.retro_shell.specs.Redirections.{input_from, output_to, redirection};
ghost use Rattle.retro_shell.specs.Redirections.{redirection_to, redirections};

use crate::context::Context;
use crate::diagnostics::failure;
use crate::expansion::expand_word;
use crate::streams::Streams;
use crate::target::Target;
use retro_syntax::tree::{Direction, Item};
use retro_tree::{Kind, NoMem, Path, Text, View};
use retro_utils::{Done, Input, Local, Mode, Reason, locate, open};
use std::alloc::Global;

/// A redirection with its expanded word.
#[derive(Drop)]
struct Redirection {
    direction: Direction,
    word: Text,
}

/// Makes the file at a path the input, if the path is a file. Otherwise returns the result of a
/// command that doesn't run.
fn read_from(
    alloc: Global,
    word: &Text,
    path: Path,
    kind: Kind,
    io: Streams,
) -> Result<Result<Streams, Done>, NoMem>
    ensures { IfOk result (λ outcome. outcome ≡ input_from word.now path kind io) }
{
    let Streams { input: _, output } = io;
    match kind {
        Kind::Missing => Ok(Err(failure(alloc, word.as_str(), Reason::NoSuchFile)?)),
        Kind::Dir => Ok(Err(failure(alloc, word.as_str(), Reason::IsDirectory)?)),
        Kind::File => Ok(Ok(Streams {
            input: Input::File(path),
            output,
        })),
    }
}

impl Redirection {
    /// Writes to the file at a path, if it could be opened.
    fn write_to(
        self,
        alloc: Global,
        path: Path,
        opened: Result<(), Reason>,
        io: Streams,
    ) -> Result<Result<Streams, Done>, NoMem>
        ensures { IfOk result (λ outcome. (s : State) →
            (s, outcome) ≡ output_to self.word path io (s, opened)) }
    {
        let Redirection { direction: _, word } = self;
        let Streams { input, output: _ } = io;
        match opened {
            Ok(()) => Ok(Ok(Streams {
                input,
                output: Target::File(word, path),
            })),
            Err(reason) => Ok(Err(failure(alloc, word.as_str(), reason)?)),
        }
    }

    /// Makes the redirection to the file at a path.
    fn make_at<V: View>(
        self,
        alloc: Global,
        path: Path,
        io: Streams,
        local: &mut Local<V>,
    ) -> Result<Result<Streams, Done>, NoMem>
        ensures means { IfOk result (λ outcome. Computes local.old local.new
            (redirection_to self.direction self.word path io) outcome) }
        ensures extends { ExtendsTree local.old local.new }
    {
        match self.direction {
            Direction::From => {
                let kind = local.kind_at(alloc, &path)?;
                Ok(read_from(alloc, &self.word, path, kind, io)?)
            }
            Direction::Onto => {
                let opened = open(alloc, Mode::Truncate, &path, local)?;
                Ok(self.write_to(alloc, path, opened, io)?)
            }
            Direction::Append => {
                let opened = open(alloc, Mode::Append, &path, local)?;
                Ok(self.write_to(alloc, path, opened, io)?)
            }
        }
    }

    /// Makes the redirection. Returns the new streams, or the result of a command that doesn't run
    /// because the redirection failed.
    #[tactic(auto, unfolding(crate::specs::Redirections::redirection))]
    fn make<V: View>(
        self,
        alloc: Global,
        sid: u32,
        io: Streams,
        local: &mut Local<V>,
    ) -> Result<Result<Streams, Done>, NoMem>
        ensures means { IfOk result (λ outcome. Computes local.old local.new
            (redirection sid self.direction self.word io) outcome) }
        ensures extends { Extends sid local.old local.new }
    {
        match locate(alloc, sid, self.word.as_str(), local)? {
            Ok(path) => Ok(self.make_at(alloc, path, io, local)?),
            Err(reason) => Ok(Err(failure(alloc, self.word.as_str(), reason)?)),
        }
    }
}

/// Makes the redirections of a command from left to right, up to the first that fails.
pub(crate) fn redirect<V: View>(
    alloc: Global,
    context: Context,
    items: &[Item],
    io: Streams,
    local: &mut Local<V>,
) -> Result<Result<Streams, Done>, NoMem>
    ensures means { IfOk result (λ outcome. Computes local.old local.new
        (redirections context (map item_view items.now) io) outcome) }
    ensures extends { Extends context.place.sid local.old local.new }
{
    let mut io = io;
    for item in items {
        if let Item::Redirect(direction, word) = item {
            let redirection = Redirection {
                direction: *direction,
                word: expand_word(alloc, context, word, local)?,
            };
            match redirection.make(alloc, context.place.sid, io, local)? {
                Ok(next) => io = next,
                Err(failed) => return Ok(Err(failed)),
            }
        }
    }
    Ok(Ok(io))
}
